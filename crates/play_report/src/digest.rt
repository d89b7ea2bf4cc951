//! The digest of images.

ghost use Rattle.std.specs.Prelude.{◌≡◌};
ghost use Rattle.play_report.specs.Digests.{digest_after, digest_step};

/// The digest with one byte more.
fn digest_step(digest: u32, byte: u8) -> u32
    ensures { result ≡ digest_step digest byte }
{
    ((u64::from(digest) * 31 + u64::from(byte)) % 4_294_967_296) as u32
}

/// The digest of bytes behind others, whose digest is given; that of no bytes is 0.
pub fn digest_after(before: u32, bytes: &[u8]) -> u32
    ensures { result ≡ digest_after before bytes.now }
{
    let mut digest = before;
    for byte in bytes {
        digest = digest_step(digest, *byte);
    }
    digest
}
