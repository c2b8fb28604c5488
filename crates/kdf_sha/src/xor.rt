ghost use Rattle.std.specs.Prelude.{◌≡◌};
ghost use Rattle.kdf_sha.specs.Xor.{xored};

pub(crate) fn xored<const N: usize>(left: &[u8; N], right: &[u8; N]) -> [u8; N]
    ensures xored { result ≡ xored left.now right.now }
{
    let mut both = *left;
    'octets: for i in 0..N {
        both[i] ^= right[i];
    }
    both
}
