use crate::admissible_values::AdmissibleValues;
use std::marker::PhantomData;

// A braking model by the rules R, scmt's or those of etcs, with the values of an admitted sheet.
#[derive_where(Clone, Copy, Debug, PartialEq, Eq)]
pub struct RulesModel<R> {
    pub(crate) sheet: AdmissibleValues,
    pub(crate) rules: PhantomData<R>,
}
