// Currencies: three capital letters.
ghost use Rattle.std.specs.Prelude.{◌≡◌, true};
ghost use Rattle.std.specs.Option.{option_map};
ghost use Rattle.text.specs.Chars.{belongs, every};
ghost use Rattle.text.specs.declared.class.Class.TheVariants.{Capital};
ghost use Rattle.values.specs.Currencies.{currency_of};

use text::class::Class;

const LETTERS: usize = 3;

#[derive(Clone, Copy)]
pub struct Currency {
    letters: [u8; LETTERS],
    ghost capital: { every (belongs Capital) letters ≡ true },
}

impl Currency {
    // The currency that the bytes name, if they are three capital letters.
    pub fn new(s: &[u8]) -> Option<Currency>
        ensures { option_map (λ c. c.letters) result ≡ currency_of s.now }
    {
        let letters: [u8; LETTERS] = s.try_into().ok()?;
        if !Class::Capital.has_all(&letters) {
            return None;
        }
        Some(Currency { letters })
    }

    pub fn letters(self) -> [u8; LETTERS]
        ensures { result ≡ self.letters }
    {
        self.letters
    }
}
