//! What no clause says: ids as another SHA-1 gives them.

use super::*;

const P: Addr = Addr::V4([192, 0, 2, 1]);

/// An address of the documentation's prefix (RFC 3849).
const SIX: Addr = Addr::V6([32, 1, 13, 184, 0, 0, 0, 0, 0, 0, 0, 0, 0, 0, 0, 1]);

/// The ids of `P` under 20 zeros in the minutes 0 and 29.
const FIRST: u64 = 0x3a09_986f_9ddc_6775;

const LATER: u64 = 0x8784_bb75_7aa3_3277;

#[test]
fn ids_as_another_sha_1_gives_them(rt: HostRuntime) {
    let zeros = Secret([0; 20]);
    let counting = Secret([
        0, 1, 2, 3, 4, 5, 6, 7, 8, 9, 10, 11, 12, 13, 14, 15, 16, 17, 18, 19,
    ]);
    for (label, secret, addr, minute, want) in [
        ("minute 0", zeros, P, 0, FIRST),
        ("the next minute", zeros, P, 1, 0x54fa_41f8_ae82_cc52),
        (
            "the next address",
            zeros,
            Addr::V4([192, 0, 2, 2]),
            0,
            0xc565_31a8_350a_a48d,
        ),
        ("IPv6", zeros, SIX, 29, 0x6802_94a1_e89f_8760),
        ("another secret", counting, P, 29, 0xe421_7f13_4501_315f),
        (
            "IPv6, another secret",
            counting,
            SIX,
            0,
            0x8126_7939_759a_dc85,
        ),
        (
            "the last minute",
            counting,
            P,
            4_294_967_295,
            0xd3d9_3617_b18e_ad6d,
        ),
    ] {
        assert_eq!(rt; mint(&secret, addr, Minute(minute)), want, "{label}");
    }
}

#[test]
fn ids_are_accepted_for_three_minutes(rt: HostRuntime) {
    let zeros = Secret([0; 20]);
    for (label, secret, addr, minute, id, want) in [
        ("in its minute", zeros, P, 0, FIRST, true),
        ("a minute old", zeros, P, 1, FIRST, true),
        ("two minutes old", zeros, P, 2, FIRST, true),
        ("three minutes old", zeros, P, 3, FIRST, false),
        ("a minute early", zeros, P, 28, LATER, false),
        ("in its minute, later", zeros, P, 29, LATER, true),
        ("two minutes old, later", zeros, P, 31, LATER, true),
        ("three minutes old, later", zeros, P, 32, LATER, false),
        ("no id", zeros, P, 0, 0, false),
        ("very old", zeros, P, 4_294_967_295, FIRST, false),
        ("another address", zeros, SIX, 0, FIRST, false),
        ("another secret", Secret([1; 20]), P, 0, FIRST, false),
    ] {
        assert_eq!(rt; check(&secret, addr, Minute(minute), id), want, "{label}");
    }
}
