// Tables that obey the rules, lent: only the two checks and what proves the rules make one.
ghost use Rattle.tables.specs.Document.{ValidDocument, of_lists};
ghost use Rattle.tables.specs.Pattern.{ValidPattern};

use crate::{Lists, Pattern};

// A pattern that obeys the rules.
#[derive(Clone, Copy)]
pub struct RightPattern<'a> {
    pub table: &'a Pattern,
    ghost right: { ∥ ValidPattern table.now ∥₁ },
}

// A document that obeys the rules.
#[derive(Clone, Copy)]
pub struct RightDocument<'a> {
    pub lists: Lists<'a>,
    ghost right: { ∥ ValidDocument (of_lists lists) ∥₁ },
}
