//! IPv4 networks, by which a listener tells who may come.

ghost use Rattle.std.specs.Prelude.{◌≡◌, ℕ, IfSome, IsNone};
ghost use Rattle.std.specs.Str.Parse.{without_leading_plus};
ghost use Rattle.std.specs.List.{list_any};
ghost use Rattle.command_words.specs.Networks.{IsBitsText, IsNetworkText, has_address, may_come};

use std::net::{Ipv4Addr, SocketAddr};

/// The addresses that have their first bits in common (RFC 4632, section 3.1). Of more than 32 bits
/// all 32 count.
#[derive(Clone, Copy, Debug)]
pub struct Network {
    /// One of its addresses.
    pub address: Ipv4Addr,
    /// How many bits its addresses have in common.
    pub bits: u8,
}

impl Network {
    /// Whether it has an address.
    pub fn has(&self, address: Ipv4Addr) -> bool
        ensures { result ≡ has_address self.now address }
    {
        let rest = 32u64.saturating_sub(self.bits as u64);
        self.address.to_bits() as u64 >> rest == address.to_bits() as u64 >> rest
    }
}

fn is_in_one(networks: &[Network], address: Ipv4Addr) -> bool
    ensures { result ≡ list_any (λ network. has_address network address) networks.now }
{
    networks.iter().any(|network| network.has(address))
}

/// Whether a peer may come: one of the networks has its address, or none is named.
pub fn is_allowed(networks: &[Network], peer: SocketAddr) -> bool
    ensures { result ≡ may_come networks.now peer }
{
    match peer {
        _ if networks.is_empty() => true,
        SocketAddr::V4(peer) => is_in_one(networks, *peer.ip()),
        SocketAddr::V6(_) => false,
    }
}

/// How many bits are in common, 0 to 32, as it is written.
fn read_bits(text: &str) -> Option<u8>
    ensures read { IfSome result (IsBitsText (without_leading_plus text.now)) }
    ensures none { IsNone result → (bits : ℕ) →
        ¬ (IsBitsText (without_leading_plus text.now) bits) }
{
    match text.parse::<u8>() {
        Ok(bits) if bits <= 32 => Some(bits),
        _ => None,
    }
}

/// A network as it is written: an address, and behind a slash how many bits are in common, 0 to 32;
/// all are where there is no slash.
pub fn read_network(text: &str) -> Option<Network>
    ensures read { IfSome result (IsNetworkText text.now) }
    ensures none { IsNone result → (network : Network) → ¬ (IsNetworkText text.now network) }
{
    let Some((address, bits)) = text.split_once('/') else {
        let Ok(address) = text.parse::<Ipv4Addr>() else {
            return None;
        };
        return Some(Network { address, bits: 32 });
    };
    let Ok(address) = address.parse::<Ipv4Addr>() else {
        return None;
    };
    let Some(bits) = read_bits(bits) else {
        return None;
    };
    Some(Network { address, bits })
}
