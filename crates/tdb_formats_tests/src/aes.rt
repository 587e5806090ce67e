// Vectors of the standard, which no clause can hold.

use tdb_aes::Schedule;

// FIPS 197 appendix B and appendix C.1.
#[test]
fn blocks_of_the_standard_go_both_ways_under_128_bits(rt: HostRuntime) {
    for (key, plain, cipher) in [
        (
            0x2b7e1516_28aed2a6_abf71588_09cf4f3cu128,
            0x3243f6a8_885a308d_313198a2_e0370734u128,
            0x3925841d_02dc09fb_dc118597_196a0b32u128,
        ),
        (
            0x00010203_04050607_08090a0b_0c0d0e0f,
            0x00112233_44556677_8899aabb_ccddeeff,
            0x69c4e0d8_6a7b0430_d8cdb780_70b4c55a,
        ),
    ] {
        let schedule = Schedule::new128(&key.to_be_bytes());
        let encrypted = schedule.encrypt_block(plain.to_be_bytes());
        assert_eq!(rt; u128::from_be_bytes(encrypted), cipher);
        let decrypted = schedule.decrypt_block(cipher.to_be_bytes());
        assert_eq!(rt; u128::from_be_bytes(decrypted), plain);
    }
}

// FIPS 197 appendix C.3, and the first blocks of SP 800-38A F.1.5 (the key's halves, a block, and the
// block enciphered).
#[test]
fn blocks_of_the_standard_go_both_ways_under_256_bits(rt: HostRuntime) {
    for (high, low, plain, cipher) in [
        (
            0x00010203_04050607_08090a0b_0c0d0e0fu128,
            0x10111213_14151617_18191a1b_1c1d1e1fu128,
            0x00112233_44556677_8899aabb_ccddeeffu128,
            0x8ea2b7ca_516745bf_eafc4990_4b496089u128,
        ),
        (
            0x603deb10_15ca71be_2b73aef0_857d7781,
            0x1f352c07_3b6108d7_2d9810a3_0914dff4,
            0x6bc1bee2_2e409f96_e93d7e11_7393172a,
            0xf3eed1bd_b5d2a03c_064b5a7e_3db181f8,
        ),
    ] {
        let mut key = [0u8; 32];
        key[..16].copy_from_slice(&high.to_be_bytes());
        key[16..].copy_from_slice(&low.to_be_bytes());
        let schedule = Schedule::new256(&key);
        let encrypted = schedule.encrypt_block(plain.to_be_bytes());
        assert_eq!(rt; u128::from_be_bytes(encrypted), cipher);
        let decrypted = schedule.decrypt_block(cipher.to_be_bytes());
        assert_eq!(rt; u128::from_be_bytes(decrypted), plain);
    }
}
