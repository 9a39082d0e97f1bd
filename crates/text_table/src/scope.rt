// Where names stand in a text map: the scopes (W-206). The definitions are in specs/.
ghost use Rattle.std.specs.Prelude.{◌≡◌};
ghost use Rattle.text_table.specs.Scopes.{scope_number};

// Where a name stands: outside of blocks, in a block of a known kind, or in one of another name.
#[derive(Clone, Copy, PartialEq, Eq)]
pub enum Scope {
    Top,
    Vertex,
    Linedef,
    Sidedef,
    Sector,
    Thing,
    Unknown,
}

pub fn scope_number(scope: Scope) -> usize
    ensures { result ≡ scope_number scope }
{
    scope as usize
}
