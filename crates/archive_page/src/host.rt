//! Whether a request asks this site, by the host that it names (RFC 9110, section 7.2).
//!
//! What a page in a browser asks for under a name of its own names that host, also where the name
//! was made to lead here (docs/DECISIONS.md, "Hosts").

ghost use Rattle.std.specs.Prelude.{◌≡◌, ◌≤◌, length, map};
ghost use Rattle.std.specs.Char.{is_ascii_digit};
ghost use Rattle.std.specs.List.{list_any, prefix_len};
ghost use Rattle.std.specs.Option.{option_copied};
ghost use Rattle.std.specs.Str.{str_eq_ignore_ascii_case};
ghost use Rattle.archive_page.specs.Hosts.{is_port, name_length, literal_length, is_ipv4, is_ipv6};
ghost use Rattle.archive_page.specs.Hosts.{is_bracketed, is_literal, is_own_name, is_own_host};
ghost use Rattle.archive_page.specs.Hosts.{is_asked_here};

use std::net::{Ipv4Addr, Ipv6Addr};

fn digits_length(text: &[u8]) -> usize
    ensures { result ≡ prefix_len is_ascii_digit text.now }
{
    text.iter().take_while(|byte| byte.is_ascii_digit()).count()
}

fn is_port(text: &[u8]) -> bool
    ensures { result ≡ is_port text.now }
{
    text.is_empty() || (text[0] == b':' && digits_length(&text[1..]) == text.len() - 1)
}

fn name_length(host: &[u8]) -> usize
    ensures value { result ≡ name_length host.now }
    ensures within { result ≤ length host.now }
{
    host.iter().take_while(|byte| **byte != b':').count()
}

fn literal_length(rest: &[u8]) -> usize
    ensures value { result ≡ literal_length rest.now }
    ensures within { result ≤ length rest.now }
{
    rest.iter().take_while(|byte| **byte != b']').count()
}

#[tactic(auto, using(crate::proofs::HostLaws::ipv4_is))]
fn is_ipv4(text: &[u8]) -> bool
    ensures { result ≡ is_ipv4 text.now }
{
    Ipv4Addr::parse_ascii(text).is_ok()
}

#[tactic(auto, using(crate::proofs::HostLaws::ipv6_is))]
fn is_ipv6(text: &[u8]) -> bool
    ensures { result ≡ is_ipv6 text.now }
{
    Ipv6Addr::parse_ascii(text).is_ok()
}

/// Whether an address of IPv6, a bracket and a port, if any, stand behind a bracket.
fn is_literal(rest: &[u8]) -> bool
    ensures { result ≡ is_literal rest.now }
{
    let end = literal_length(rest);
    end < rest.len() && is_port(&rest[end + 1..]) && is_ipv6(&rest[..end])
}

fn is_bracketed(host: &[u8]) -> bool
    ensures { result ≡ is_bracketed host.now }
{
    !host.is_empty() && host[0] == b'['
}

/// Whether both are the same, in letters of any size (RFC 4343).
fn is_same(name: &[u8], text: &[u8]) -> bool
    ensures { result ≡ str_eq_ignore_ascii_case name.now text.now }
{
    name.eq_ignore_ascii_case(text)
}

/// Whether a text is one of these names.
fn is_among(names: &[&str], text: &[u8]) -> bool
    ensures { result ≡ list_any (λ name. str_eq_ignore_ascii_case name text.now)
        (map (λ name. name.now) names.now) }
{
    for name in names {
        if is_same(name.as_bytes(), text) {
            return true;
        }
    }
    false
}

fn is_own_name(text: &[u8], names: &[&str]) -> bool
    ensures { result ≡ is_own_name (map (λ name. name.now) names.now) text.now }
{
    is_ipv4(text) || is_same(text, b"localhost") || is_among(names, text)
}

/// Whether a host is one of the site's, with a port or without: an address, which no name leads
/// to, `localhost`, or one of these names.
pub fn is_own_host(host: &[u8], names: &[&str]) -> bool
    ensures { result ≡ is_own_host (map (λ name. name.now) names.now) host.now }
{
    if is_bracketed(host) {
        return is_literal(&host[1..]);
    }
    let end = name_length(host);
    is_port(&host[end..]) && is_own_name(&host[..end], names)
}

/// Whether a request that names this host, or none, asks this site. One of HTTP/1.1 names one, as
/// each browser does.
pub fn is_asked_here(host: Option<&[u8]>, names: &[&str]) -> bool
    ensures { result
        ≡ is_asked_here (map (λ name. name.now) names.now) (option_copied host.entry) }
{
    match host {
        None => true,
        Some(host) => is_own_host(host, names),
    }
}
