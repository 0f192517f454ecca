ghost use Rattle.std.specs.Prelude.{◌≡◌, ◌+◌, ◌*◌, ◌≤◌, pos, ◌+ℤ◌, ◌*ℤ◌, int_lt};
ghost use Rattle.units.specs.Fractions.{Fraction, whole};
ghost use Rattle.stopping.specs.Factors.{FactorsLose};
ghost use Rattle.stopping.specs.Laws.{LawfulStop, Uncut};
ghost use Rattle.stopping.specs.Steps.{AreStepsOf, stop_of};
ghost use Rattle.stopping.specs.Stops.{Near, computed_braking, computed_lead, computed_reaction, natural, speed_reached_up};

use crate::net_deceleration::NetDeceleration;
use crate::speed_loss::ExactLoss;
use crate::speed_reached::SpeedReached;
use crate::steps::Steps;
use crate::stop::Stop;
use braking::Distances;
use units::{Deceleration, FineSpeed};

// A net deceleration below this, a twentieth of a m/s², is too weak to brake by.
const LEAST_NET: Deceleration = Deceleration { units: 500_000 };

// Whether a net deceleration is too weak to brake by.
fn is_weak(net: Deceleration) -> bool
    ensures { result ≡ int_lt net.units (pos 500000) }
{
    net < LEAST_NET
}

impl Stop {
    // The steps of the stop. The struct holds the brake's deceleration rounded down, and not the exact one that it came from; so the clauses speak of every exact one.
    // `steps` says which numbers are computed. Of each exact deceleration that the rounded one is near, `lawful` says that the distances keep within the margin of a braking model, and `uncut` that nothing is cut off the exact formulas. `factors` says how near a product of factors is that was rounded down after each.
    pub fn steps(&self) -> Steps
        ensures steps { (exact : Fraction) → AreStepsOf (stop_of self.now exact) result }
        ensures lawful { (exact : Fraction) → Near exact self.now.braking.units → LawfulStop (stop_of self.now exact) }
        ensures uncut { (exact : Fraction) → Near exact self.now.braking.units → Uncut (stop_of self.now exact) }
        ensures factors { FactorsLose }
    {
        let reached = self.speed_reached();
        let net = self.net();
        let answer = if is_weak(net) {
            None
        } else {
            Some(self.distances(reached, NetDeceleration { deceleration: net }))
        };
        Steps {
            reaction: self.reaction.time,
            slope: self.slope,
            reached: reached.speed,
            net,
            answer,
        }
    }

    // What brake and slope do together.
    fn net(&self) -> Deceleration
        ensures { result.units ≡ pos self.now.braking.units +ℤ self.now.slope.units }
    {
        // the cast loses nothing, since a brake's deceleration is bounded by its type
        let braking = Deceleration {
            units: self.braking.units as i64,
        };
        braking + self.slope
    }

    // What the slope takes off the speed until the brake acts: its deceleration times the reaction time. One unit for one tick is 9 parts of a fine step.
    fn exact_loss(&self) -> ExactLoss
        ensures { result.parts ≡ pos (9 * self.now.reaction.time.ticks) *ℤ self.now.slope.units }
    {
        ExactLoss {
            parts: 9 * (self.reaction.time.ticks as i64) * self.slope.units,
        }
    }

    // The target speed in fine steps.
    fn target_fine_speed(&self) -> FineSpeed
        ensures { result.fine_steps ≡ 1000 * self.now.target_speed.tenths }
    {
        FineSpeed {
            fine_steps: 1000 * self.target_speed.tenths,
        }
    }

    // The speed when the brake acts, rounded up, and never below the target speed.
    fn speed_reached(&self) -> SpeedReached
        ensures value { result.speed.fine_steps ≡ speed_reached_up (stop_of self.now (whole 0)) }
        ensures reaches { 1000 * self.now.target_speed.tenths ≤ result.speed.fine_steps }
    {
        // signed, since uphill a slow train may come to a stand before the brake acts
        let left = 1000 * (self.speed.tenths as i64) - self.exact_loss().in_fine_steps().fine_steps;
        let target = self.target_fine_speed().fine_steps as i64;
        SpeedReached {
            speed: FineSpeed {
                fine_steps: left.max(target) as u64,
            },
        }
    }

    // The three distances from the speed reached, each of their terms rounded up.
    fn distances(&self, reached: SpeedReached, net: NetDeceleration) -> Distances
        requires { 1000 * self.now.target_speed.tenths ≤ reached.speed.fine_steps }
        ensures control { result.control.millimetres ≡ computed_reaction self.now.reaction.time.ticks reached.speed.fine_steps + computed_braking reached.speed.fine_steps (1000 * self.now.target_speed.tenths) (natural net.deceleration.units) }
        ensures warning { result.warning.millimetres ≡ result.control.millimetres + computed_lead self.now.lead.warning.tenths reached.speed.fine_steps }
        ensures nominal { result.nominal.millimetres ≡ result.warning.millimetres + computed_lead self.now.lead.hysteresis.tenths reached.speed.fine_steps }
    {
        let reaction = reached.reaction_distance(self.reaction);
        let braking = net.braking_distance(reached, self.target_fine_speed());
        let control = reaction + braking;
        let warning = control + reached.lead_distance(self.lead.warning);
        let nominal = warning + reached.lead_distance(self.lead.hysteresis);
        Distances {
            control,
            warning,
            nominal,
        }
    }
}
