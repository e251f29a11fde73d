// Words that the language keeps for itself.
ghost use Rattle.std.specs.Prelude.{◌≡◌};
ghost use Rattle.arguments.specs.Values.{special};

/// What the first name of a path is: a loop object, a word that heads no path (`empty`, `blank`), or any other name.
// Four cases and no Option: any other name is one of the things that a path may begin with.
#[derive(Clone, Copy, Debug, PartialEq, Eq)]
pub enum Special {
    Forloop,
    Tablerowloop,
    Barred,
    Free,
}

#[tactic(auto, using(crate::proofs::Specials::special_reads, std::proofs::lemmas::Bool::Decides::nat_tests))]
pub(crate) fn special_of(name: &[u8]) -> Special
    ensures { result ≡ special name.now }
{
    match name {
        b"forloop" => Special::Forloop,
        b"tablerowloop" => Special::Tablerowloop,
        b"empty" | b"blank" => Special::Barred,
        _ => Special::Free,
    }
}
