// A field as it stands in the text, and the reader over a text's fields.
ghost use Rattle.std.specs.Prelude.{◌≡◌, true};
ghost use Rattle.cuts.specs.Cuts.{whole};

use text::tag::Tag;

// A field's tag, and its rows with their CrLf, the first from after the tag.
#[derive(Clone, Copy)]
pub struct Tagged<'a> {
    pub tag: Tag,
    pub bytes: &'a [u8],
}

// The fields of a formed text that are still to come.
#[derive(Drop)]
pub struct Fields<'a> {
    pub rest: &'a [u8],
    ghost whole: { whole rest.now ≡ true },
}
