// The text of a message, read by its kind.
ghost use Rattle.std.specs.Prelude.{◌≡◌};
ghost use Rattle.headers.specs.Read.{header_parts};
ghost use Rattle.kinds.specs.Contents.{seen_as};
ghost use Rattle.kinds.specs.Terms.{terms_of};
ghost use Rattle.kinds.specs.Verdicts.{text_read};

use crate::kind::Kind;
use faults::{Code, Fault};
use fields::terms::Terms;
use headers::Header;
use orders::Walk;
use settings::Settings;

// What the settings ask of every value. No `From`, since neither type is of this crate.
pub(crate) fn terms_of(settings: &Settings) -> Terms
    ensures { result ≡ terms_of settings.now }
{
    Terms {
        day: settings.date().yymmdd(),
        currency: settings.currency().letters(),
    }
}

// The contents of the text that follows a header.
pub(crate) fn read_text<'a, K: Kind<'a>>(
    header: Header<'a>,
    terms: Terms,
) -> Result<K::Contents, Fault>
    ensures { seen_as K.Kind.parts result ≡ text_read K.Kind.reads terms (header_parts header.entry) }
{
    let mut walk = Walk::of(header.text);
    if walk.is_done() {
        return Err(Fault::of_message(Code::F04));
    }
    K::read(&mut walk, terms, header.bic)
}
