//! Laws of the definitions that the contracts cite.

ghost use Rattle.edge_links.specs.NameEdgeLaws.{AddedEdgesLaw, ForgettingEdgesLaw};

/// Forgetting what changed keys affect, one key after another, forgets exactly what all of them together affect.
pub fn forgetting_law()
    ensures { ForgettingEdgesLaw }
{}

/// After a name is linked, it has the added edges, and all earlier edges stay.
pub fn linking_law()
    ensures { AddedEdgesLaw }
{}
