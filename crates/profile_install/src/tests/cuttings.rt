//! The sample packages in pieces that are cut anywhere.

use super::packages::*;
use super::samples::*;
use super::*;
use std::test::Fail;

#[test]
fn the_first_sample_in_any_two_pieces(rt: HostRuntime) -> Result<(), Fail> {
    let rules = rules(rt.alloc())?;
    for cut in 0..142 {
        let content = built(rt.alloc(), ICCID, SAMPLE, &[cut])?;
        assert!(rt; is_first(&content, rules.as_slice()), "{cut}");
    }
    Ok(())
}

#[test]
fn the_first_sample_in_141_pieces_of_one_byte(rt: HostRuntime) -> Result<(), Fail> {
    let rules = rules(rt.alloc())?;
    let content = built(rt.alloc(), ICCID, SAMPLE, &[1; 140])?;
    assert!(rt; is_first(&content, rules.as_slice()));
    Ok(())
}

#[test]
fn the_second_sample_in_any_two_pieces(rt: HostRuntime) -> Result<(), Fail> {
    let rules = rules(rt.alloc())?;
    for cut in 0..238 {
        let content = built(rt.alloc(), OTHER_ICCID, SECOND_SAMPLE, &[cut])?;
        assert!(rt; is_second(&content, rules.as_slice()), "{cut}");
    }
    Ok(())
}

#[test]
fn the_second_sample_in_237_pieces_of_one_byte(rt: HostRuntime) -> Result<(), Fail> {
    let rules = rules(rt.alloc())?;
    let content = built(rt.alloc(), OTHER_ICCID, SECOND_SAMPLE, &[1; 236])?;
    assert!(rt; is_second(&content, rules.as_slice()));
    Ok(())
}

// Lengths of pieces from 0 to 31 that look random, the same for a seed.
fn random_lengths(alloc: Global, seed: u64) -> Result<Vec<usize>, NoMemory> {
    let mut lengths = Vec::new(alloc);
    let mut drawn = seed;
    for _ in 0..40 {
        drawn = drawn
            .wrapping_mul(6_364_136_223_846_793_005)
            .wrapping_add(1_442_695_040_888_963_407);
        lengths.push((drawn >> 59) as usize)?;
    }
    Ok(lengths)
}

#[test]
fn the_first_sample_in_random_pieces(rt: HostRuntime) -> Result<(), Fail> {
    let rules = rules(rt.alloc())?;
    for seed in 0..200 {
        let lengths = random_lengths(rt.alloc(), seed)?;
        let content = built(rt.alloc(), ICCID, SAMPLE, lengths.as_slice())?;
        assert!(rt; is_first(&content, rules.as_slice()), "{seed}");
    }
    Ok(())
}

#[test]
fn the_second_sample_in_random_pieces(rt: HostRuntime) -> Result<(), Fail> {
    let rules = rules(rt.alloc())?;
    for seed in 0..200 {
        let lengths = random_lengths(rt.alloc(), seed)?;
        let content = built(rt.alloc(), OTHER_ICCID, SECOND_SAMPLE, lengths.as_slice())?;
        assert!(rt; is_second(&content, rules.as_slice()), "{seed}");
    }
    Ok(())
}
