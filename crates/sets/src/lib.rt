// Sets of vehicles, each a 64-bit number: vehicle 1 is its lowest bit. Document 02, "a label register beside the fleet". The functions
// are for the crates above, which show that they ask about vehicles 1 to 64.
#![tactic(auto)]

ghost use Rattle.std.specs.Prelude.{◌≡◌};
ghost use Rattle.terms.specs.Tells.{Tells};
ghost use Rattle.sets.specs.Sets.{IsVehicleNumber, bit, Member, with, without, size};

// The vehicle's bit.
fn bit(vehicle: usize) -> u64
    requires { IsVehicleNumber vehicle }
    ensures { result ≡ bit vehicle }
{
    1 << (vehicle - 1)
}

// Whether the vehicle is in the set.
pub fn member(set: u64, vehicle: usize) -> bool
    requires { IsVehicleNumber vehicle }
    ensures { Tells result (Member vehicle set) }
{
    (set >> (vehicle - 1)) % 2 == 1
}

// The set and the vehicle.
pub fn with(set: u64, vehicle: usize) -> u64
    requires { IsVehicleNumber vehicle }
    ensures { result ≡ with vehicle set }
{
    set | bit(vehicle)
}

// The set less the vehicle.
pub fn without(set: u64, vehicle: usize) -> u64
    requires { IsVehicleNumber vehicle }
    ensures { result ≡ without vehicle set }
{
    if member(set, vehicle) {
        set - bit(vehicle)
    } else {
        set
    }
}

// How many vehicles are in the set.
pub fn size(set: u64) -> usize
    ensures { result ≡ size set }
{
    set.count_ones() as usize
}
