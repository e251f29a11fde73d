// How lists of elements end.

/// Whether a list of elements goes on, or a `break` or `continue` ends it.
#[derive(Clone, Copy)]
pub(crate) enum Flow {
    Onward,
    Broken,
    Continued,
}

impl Flow {
    ghost use Rattle.std.specs.Prelude.{◌≡◌};
    ghost use Rattle.meaning.specs.Blocks.{is_broken};
    ghost use Rattle.renderer.specs.Flows.{flow_of};

    /// Whether it is a `break`.
    pub(crate) fn is_broken(self) -> bool
        ensures { result ≡ is_broken (flow_of self) }
    {
        matches!(self, Flow::Broken)
    }
}
