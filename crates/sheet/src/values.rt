use crate::words::{LengthChoice, Model, Regime, Service};

// The twelve values of a train sheet, in range or not.
#[derive(Clone, Copy, Debug, PartialEq, Eq)]
pub struct Values {
    pub model: Model,
    pub regime: Regime,
    // a passenger train or a goods train
    pub train: Service,
    // for which of the two its brake is set
    pub brake: Service,
    // whether the electro-pneumatic brake works, 0 or 1; a draft may hold any number here, which admitting refuses
    pub ep: u16,
    // the braked weight percentage, which says how well the train brakes
    pub lambda: u16,
    // the train's length, in m
    pub length: u16,
    // which length the time of the brake pipe is worked out from
    pub lfren: LengthChoice,
    // the share of the braking deceleration that is counted on, in hundredths
    pub kr: u16,
    // the warning time, in tenths of a second
    pub tw: u16,
    // the hysteresis time, in tenths of a second
    pub ti: u16,
    // the share of an announced distance that is cut off, in percent
    pub eps: u16,
}
