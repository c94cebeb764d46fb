//! What every crate of cello shares: the error for want of memory, short names, the eight parts of an amount, and its flux.
//!
//! A name holds at most 32 bytes, and contracts see it as the list of them. The parts of an amount add up to it.
//! None of these takes memory. The definitions stand in `specs/`, with the sum of a function's first values.
#![tactic(auto)]

mod fluxes;
mod memory;
mod name;
mod parts;

pub use fluxes::flux;
pub use memory::Memory;
pub use name::Name;
pub use parts::{part, parts_add_up};

#[cfg(test)]
mod tests {
    use super::*;
    use std::test::Fail;

    #[test]
    fn a_name_has_its_bytes(rt: HostRuntime) -> Result<(), Fail> {
        let longest = [b'n'; 32];
        let name = Name::of(b"wave").ok_or("too long")?;
        let other = Name::of(&longest).ok_or("too long")?;
        assert_eq!(rt; name.bytes(), b"wave".as_slice());
        assert_eq!(rt; other.bytes(), longest.as_slice());
        assert!(rt; name != other);
        assert_eq!(rt; Name::of(&[b'n'; 33]), None);
        Ok(())
    }

    #[test]
    fn an_amount_has_eight_parts(rt: HostRuntime) -> Result<(), Fail> {
        for k in 0..8u8 {
            let of_eleven = if k < 3 { 2 } else { 1 };
            assert_eq!(rt; part(11, k), of_eleven);
            assert_eq!(rt; part(0, k), 0);
            assert_eq!(rt; part(1 << 40, k), 137_438_953_472);
        }
        Ok(())
    }

    #[test]
    fn a_flux_is_rounded_down(rt: HostRuntime) -> Result<(), Fail> {
        assert_eq!(rt; flux(11, 1, 4, 0), 2);
        assert_eq!(rt; flux(2, 1, 4, 1), 1);
        assert_eq!(rt; flux(1, 1, 4, 1), 0);
        assert_eq!(rt; flux(1 << 42, 1 << 14, 1 << 20, 6), 1 << 42);
        Ok(())
    }
}
