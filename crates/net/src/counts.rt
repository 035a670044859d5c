// L, U and C of a net.
ghost use Rattle.std.specs.Prelude.{◌≡◌};
ghost use Rattle.net.specs.Net.{net_controls, net_latches, net_readings};

use below::get_or;

#[tactic(auto, unfolding(crate::specs::Net::net_latches))]
pub fn latches(net: &[u16]) -> usize
    ensures { result ≡ net_latches net.now }
{
    usize::from(get_or(net, 2, 0))
}

#[tactic(auto, unfolding(crate::specs::Net::net_readings))]
pub fn readings(net: &[u16]) -> usize
    ensures { result ≡ net_readings net.now }
{
    usize::from(get_or(net, 1, 0))
}

#[tactic(auto, unfolding(crate::specs::Net::net_controls))]
pub fn controls(net: &[u16]) -> usize
    ensures { result ≡ net_controls net.now }
{
    usize::from(get_or(net, 0, 0))
}
