use cep_term::Terms;

/// An instance of a rule: the rule by its number, with a value for each of its variables, in the
/// order of the variables' numbers.
pub struct Offer {
    pub rule: u32,
    pub values: Terms,
}

impl Drop for Offer {
    fn drop(self) {
        let Offer { rule: _, values } = self;
        drop(values);
    }
}
