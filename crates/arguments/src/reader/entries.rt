// Nodes and values that enter the tables, and room for nodes.
ghost use Rattle.std.specs.Prelude.{◌≡◌, [], ◌∷◌, ◌++◌, take, slice_set, OnOk, vec_items};
ghost use Rattle.arguments.specs.Judging.{pure, room_at, one_more, seen};
ghost use Rattle.arguments.specs.Values.{read, is_value, value};
ghost use Rattle.arguments.specs.Reading.{one_too_many, Valued};
ghost use Rattle.arguments.specs.Tables.{pool_of, with_values, under, Said, Longer, Sets, Is};

use crate::reader::Reader;
use crate::refusals::{Refusal, Stop};
use cutter::tokens::{Token, Word};
use nodes::exprs::Expr;
use nodes::table::Node;

// How many nodes a sheet may have.
const NODES: usize = 4096;

/// Whether a token may be a value, whatever else is wrong with it.
pub fn is_value(word: Word) -> bool
    ensures { result ≡ is_value (read (seen word.entry.place word.entry.bytes.now)) }
{
    !matches!(word.token(), Token::Range(_, _) | Token::Symbol(_))
}

/// The refusal of one value too many.
pub fn too_many(word: Word) -> Stop
    ensures { result ≡ one_too_many (seen word.entry.place word.entry.bytes.now) }
{
    let refusal = if is_value(word) {
        Refusal::Limit
    } else {
        Refusal::Argument
    };
    Stop::Refused(refusal, word.place)
}

impl Reader<'_> {
    /// There is room for one node more, for what stands at `place`.
    #[tactic(auto, unfolding(crate::specs::Judging::room_at))]
    pub fn room(&self, place: usize) -> Result<(), Stop>
        ensures { Said result (room_at place (under self.now)) Is (under self.now) }
    {
        if self.nodes.len() >= NODES {
            return Err(Stop::Refused(Refusal::Limit, place));
        }
        Ok(())
    }

    /// One node more, for which there is room.
    #[tactic(auto, unfolding(crate::specs::Judging::one_more))]
    pub fn push_node(&mut self, node: Node) -> Result<(), Stop>
        ensures says { Said result (one_more (under self.old)) Is (under self.new) }
        ensures pushed { OnOk result (vec_items self.new.nodes ≡ vec_items self.old.nodes ++ node ∷ []) }
        ensures pool { pool_of self.new ≡ pool_of self.old }
        ensures longer { Longer self.old self.new }
    {
        self.nodes.push(node)?;
        Ok(())
    }

    // One value more.
    fn push_value(&mut self, value: Expr) -> Result<(), Stop>
        ensures says { Said result (pure tt (under self.old)) Is (under self.new) }
        ensures pushed { OnOk result (vec_items self.new.values ≡ vec_items self.old.values ++ value ∷ []) }
        ensures pool { pool_of self.new ≡ with_values (vec_items self.new.values) (pool_of self.old) }
        ensures nodes { vec_items self.new.nodes ≡ vec_items self.old.nodes }
        ensures longer { Longer self.old self.new }
    {
        self.values.push(value)?;
        Ok(())
    }

    /// Sets the node at `at`, if there is one.
    pub fn set_node(&mut self, at: usize, node: Node)
        ensures { Sets self.old self.new (slice_set (vec_items self.old.nodes) at node) }
    {
        if let Some(place) = self.nodes.get_mut(at) {
            *place = node;
        }
    }

    /// Drops the nodes from `count` on.
    pub fn drop_nodes(&mut self, count: usize)
        ensures { Sets self.old self.new (take count (vec_items self.old.nodes)) }
    {
        self.nodes.truncate(count);
    }

    /// A value, which enters the table.
    #[tactic(auto, using(crate::proofs::Chaining::said_went, crate::proofs::Chaining::refuses_went))]
    pub fn enter_value(&mut self) -> Result<(), Stop>
        ensures says { Said result (value self.old.mark (under self.old)) (Valued self.old self.new) (under self.new) }
        ensures nodes { vec_items self.new.nodes ≡ vec_items self.old.nodes }
        ensures longer { Longer self.old self.new }
    {
        let value = self.value()?;
        self.push_value(value)
    }
}
