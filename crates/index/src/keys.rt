// What the index asks of keys, and of the items that have them.
ghost use Rattle.std.specs.Prelude.{◌≡◌, Bool, Option as Maybe};
ghost use Rattle.std.specs.declared.cmp.Ordering.TheVariants.{Equal};
ghost use Rattle.index.specs.Order.{less};

// A kind of key: an order of the keys, in which those that compare as equal are one and the same.
pub trait Key: Ord {
    // which of two keys comes first
    ghost before: { Self → Self → Bool };

    ghost ordered: { (x y : Self) → less Self.cmp x y ≡ before x y };

    ghost same: { (x y : Self) → Self.cmp x y ≡ Equal → x ≡ y };
}

// An item that may have a key of the kind K. One type of items may have keys of several kinds.
pub trait Keyed<K> {
    ghost called: { Self → Maybe K };

    fn key(&self) -> Option<K>
        ensures { result ≡ called self.now };
}
