// FNV-1a of 64 bits: a check against mixing files up, not against forgery.
#![tactic(auto)]

ghost use Rattle.std.specs.Prelude.{◌≡◌};
ghost use Rattle.digests.specs.Digest.{mixed, digest_of};

// The digest with one byte more: the digits that differ, times the prime 2^40 + 435, modulo 2^64.
#[tactic(auto, unfolding(crate::specs::Digest::mixed))]
fn mix(hash: u64, byte: u8) -> u64
    ensures { result ≡ mixed «hash» byte }
{
    (u64::from(byte) ^ hash).wrapping_mul(0x100_0000_01b3)
}

// The digest of all bytes of a file.
#[tactic(auto, using(crate::proofs::DigestLaws::turn, crate::proofs::DigestLaws::end))]
pub fn digest(file: &[u8]) -> u64
    ensures { result ≡ digest_of file.now }
{
    let mut hash = 0xcbf2_9ce4_8422_2325;
    for byte in file {
        hash = mix(hash, *byte);
    }
    hash
}
