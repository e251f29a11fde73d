ghost use Rattle.std.specs.Prelude.{◌≡◌, drop};
ghost use Rattle.cutter.specs.Scan.{cut, cut_at};
ghost use Rattle.cutter.specs.Left.{left, Gave};
ghost use Rattle.cutter.specs.Laws.{RightCut, OnlyCut, Joins, TidyPieces, RightCutAt, OnlyCutAt, JoinsAt, TidyPiecesAt};

use crate::pieces::{Cutter, Piece, Unclosed};
use crate::places::{Place, Placed};
use crate::state::{Event, State};

impl<'a> Cutter<'a> {
    /// A part to cut. Places count from its first byte.
    pub fn new(src: &'a [u8]) -> Self
        ensures cuts { left result ≡ cut src.now }
        ensures right { RightCut }
        ensures only { OnlyCut }
        ensures joins { Joins }
        ensures tidy { TidyPieces }
    {
        Cutter::at(src, 0)
    }

    /// The bytes of `src` from `place` on, to cut; nothing where it has fewer. Places count from the first byte of `src`.
    #[tactic(auto, using(crate::proofs::Lawful::right_cut_at, crate::proofs::Lawful::only_cut_at, crate::proofs::Lawful::joins_at, crate::proofs::Lawful::tidy_pieces_at))]
    pub fn at(src: &'a [u8], place: usize) -> Self
        ensures cuts { left result ≡ cut_at place (drop place src.now) }
        ensures right { RightCutAt }
        ensures only { OnlyCutAt }
        ensures joins { JoinsAt }
        ensures tidy { TidyPiecesAt }
    {
        let start = place.min(src.len());
        Cutter {
            rest: Place { src, at: start },
            start,
            state: State::Text,
        }
    }

    /// The next piece; nothing behind the last, and an unclosed mark again and again.
    #[tactic(auto, using(crate::proofs::Steps::goes, crate::proofs::Steps::opens_text, crate::proofs::Steps::closes))]
    pub fn next(&mut self) -> Result<Option<Piece<'a>>, Unclosed>
        ensures { Gave (left self.old) result (left self.new) }
    {
        // No iterator: each byte changes the cutter itself, which the caller gets back in the middle of its bytes.
        while let Some(b) = self.rest.src.get(self.rest.at) {
            let Place { src, at } = self.rest;
            let start = self.start;
            let event = self.state.step(*b);
            self.rest.at = at + 1;
            match event {
                Event::Goes => {}
                Event::Opens => {
                    self.start = at - 1;
                    if start < at - 1 {
                        return Ok(Some(Piece::Text(Placed {
                            place: start,
                            bytes: &src[start..at - 1],
                        })));
                    }
                }
                Event::Closes(kind) => {
                    self.start = at + 1;
                    return Ok(Some(Piece::Mark(
                        kind,
                        Placed {
                            place: start,
                            bytes: &src[start + 2..at - 1],
                        },
                    )));
                }
            }
        }
        let Place { src, at } = self.rest;
        let start = self.start;
        match self.state {
            State::Text | State::Brace if start < at => {
                self.start = at;
                self.state = State::Text;
                Ok(Some(Piece::Text(Placed {
                    place: start,
                    bytes: &src[start..at],
                })))
            }
            State::Text | State::Brace => Ok(None),
            _ => Err(Unclosed { place: start }),
        }
    }
}
