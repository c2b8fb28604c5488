use crate::{hmac256, pbkdf2_256};
use std::alloc::{AllocError, Global};
use std::test::Fail;

fn digits_of(alloc: Global, octets: &[u8]) -> Result<String, AllocError> {
    let mut digits = String::new(alloc);
    for octet in octets {
        write!(digits, "{octet:02x}")?;
    }
    Ok(digits)
}

// RFC 4231, test cases 2 and 6: a short key, and one longer than a block.
#[test]
fn codes_are_those_of_the_standard(rt: HostRuntime) -> Result<(), Fail> {
    let code = hmac256(b"Jefe", b"what do ya want for nothing?");
    assert_eq!(rt;
        digits_of(rt.alloc(), &code)?.as_str(),
        "5bdcc146bf60754e6a042426089575c75a003f089d2739839dec58b964ec3843"
    );
    let code = hmac256(
        &[0xaa; 131],
        b"Test Using Larger Than Block-Size Key - Hash Key First",
    );
    assert_eq!(rt;
        digits_of(rt.alloc(), &code)?.as_str(),
        "60e431591ee0b67f0d8a26aacbf5b77f8e0bc6213728c5140546040f0ee37f54"
    );
    Ok(())
}

// The first is in common use, the second of RFC 7914, section 11, and the third the SHA-256 sibling of the last but one
// of RFC 6070: more than one round, and a length that is no whole number of blocks.
#[test]
fn keys_are_those_of_the_standard(rt: HostRuntime) -> Result<(), Fail> {
    let mut key = [0; 32];
    pbkdf2_256(b"password", b"salt", 1, &mut key);
    assert_eq!(rt;
        digits_of(rt.alloc(), &key)?.as_str(),
        "120fb6cffcf8b32c43e7225256c4f837a86548c92ccc35480805987cb70be17b"
    );
    let mut key = [0; 64];
    pbkdf2_256(b"passwd", b"salt", 1, &mut key);
    assert_eq!(rt;
        digits_of(rt.alloc(), &key)?.as_str(),
        "55ac046e56e3089fec1691c22544b605f94185216dde0465e68b9d57c20dacbc49ca9cccf179b645991664b39d77ef317c71b845b1e30bd509112041d3a19783"
    );
    let mut key = [0; 40];
    pbkdf2_256(
        b"passwordPASSWORDpassword",
        b"saltSALTsaltSALTsaltSALTsaltSALTsalt",
        4096,
        &mut key,
    );
    assert_eq!(rt;
        digits_of(rt.alloc(), &key)?.as_str(),
        "348c89dbcbd32b2f32d814b8116e84cf2b17347ebc1800181c4e2a1fb8dd53e1c635518c7dac47e9"
    );
    Ok(())
}
