//! What a node knows of its nearest marked proper ancestor.
ghost use Rattle.std.specs.Prelude.{◌≡◌, ◌<◌, length};
ghost use Rattle.pointer_jumping.specs.Climbs.{AreUpward};
ghost use Rattle.pointer_jumping.specs.Jumps.{IsJump, StandsBelow, is_open as is_open_jump, onwards as onwards_from, found_by};

/// What a node knows of its nearest marked proper ancestor.
#[derive(Clone, Copy)]
pub(crate) enum Jump {
    /// There is none.
    Root,
    /// It is this node.
    Found(u32),
    /// No node on the way up to this one is marked, nor is this one.
    To(u32),
}

impl Jump {
    /// What the parent alone tells.
    pub(crate) fn first(parents: &[Option<u32>], marks: &[bool], node: u32) -> Jump
        requires within { node < length parents.now }
        requires marks { length marks.now ≡ length parents.now }
        requires upward { AreUpward parents.now }
        ensures { IsJump parents.now marks.now 1 node result }
    {
        match parents[node as usize] {
            None => Jump::Root,
            Some(parent) => {
                if marks[parent as usize] {
                    Jump::Found(parent)
                } else {
                    Jump::To(parent)
                }
            }
        }
    }

    /// What is known ahead, at the node where it stands, or the same where it has come to the end.
    pub(crate) fn onwards(self, ahead: &[Jump]) -> Jump
        requires { StandsBelow (length ahead.now) self }
        ensures { result ≡ onwards_from ahead.now self }
    {
        match self {
            Jump::To(node) => ahead[node as usize],
            settled => settled,
        }
    }

    /// Whether it hasn't come to the end.
    pub(crate) fn is_open(self) -> bool
        ensures { result ≡ is_open_jump self }
    {
        matches!(self, Jump::To(_))
    }

    /// The ancestor that it has found.
    pub(crate) fn found(self) -> Option<u32>
        ensures { result ≡ found_by self }
    {
        match self {
            Jump::Found(node) => Some(node),
            _ => None,
        }
    }
}
