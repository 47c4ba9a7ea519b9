// The keys, as the index takes them.
ghost use Rattle.std.proofs.Common.{refl};
ghost use Rattle.keys.specs.Orders.{lesser, earlier};
ghost use Rattle.keys.specs.Same.{bic_alike, reference_key_alike};

use crate::bic::Bic;
use crate::reference_key::ReferenceKey;
use index::Key;

impl Key for Bic {
    ghost before = { lesser };

    ghost ordered = { λ x y. refl };

    ghost same = { bic_alike };
}

impl Key for ReferenceKey {
    ghost before = { earlier };

    ghost ordered = { λ x y. refl };

    ghost same = { reference_key_alike };
}
