//! The strict check of a cabling image for hosts in C and Rust.
#![tactic(auto)]

ghost use Rattle.host.specs.Answer.{host_answer};
ghost use Rattle.std.specs.Prelude.{◌≡◌};

use layout::Cabling;

/// The longest image that a host may hand over, in bytes.
const LONGEST: usize = 65536;

/// What the host gets for more bytes than that.
const TOO_LONG: u64 = 255;

/// Checks an image of the cabling layout: 0 if it is accepted, or 256 times the byte place of its
/// first fault plus the fault's number (10 to 19). More than 65,536 bytes are answered by 255.
#[unsafe(no_mangle)]
pub extern "C" fn topology_check(bytes: &[u8]) -> u64
    ensures { result ≡ host_answer bytes.now }
{
    if bytes.len() > LONGEST {
        return TOO_LONG;
    }
    // One number for all outcomes, as the C interface has it.
    match image::check::<Cabling>(bytes) {
        Ok(_) => 0,
        Err(refusal) => 256 * refusal.place as u64 + u64::from(u32::from(refusal.fault)),
    }
}
