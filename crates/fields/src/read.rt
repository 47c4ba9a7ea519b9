// What a field gives once it is read.
ghost use Rattle.std.specs.Prelude.{◌≡◌};
ghost use Rattle.std.specs.Option.{option_map};
ghost use Rattle.fields.specs.Shapes.{part_of, account_in, line_in};

use crate::shape::Field;

impl<'a> Field<'a> {
    // The account, if the field gives one.
    pub fn account(self) -> Option<&'a [u8]>
        ensures { option_map (λ x. x.now) result ≡ account_in (part_of self.entry) }
    {
        match self {
            Field::Party(account, _) => account,
            _ => None,
        }
    }

    // The single row or the BIC that the field is; nothing of rows.
    pub fn line(self) -> &'a [u8]
        ensures { result.now ≡ line_in (part_of self.entry) }
    {
        match self {
            Field::Row(line) | Field::Bic(line) => line,
            Field::Rows(_) | Field::Party(..) => b"",
        }
    }
}
