//! The ground of the names of a class tree.

ghost use Rattle.dns_data.specs.Name.{Labels};
ghost use Rattle.net_model.specs.Reading.{Ground};

/// What names a ground, so that names of its class tree can keep what is known of them in a graph with this ground: a
/// live set is read in no other. It names too what may hold of all names at or below one of the tree.
pub trait OnGround {
    ghost ground: { Ground };

    ghost holds: { Labels → Type 0 };
}
