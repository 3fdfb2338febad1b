//! Compares message authentication codes with vectors from outside.

use crate::tests::rows::fields_of;
use hmac_mac0::{Mac, Mac512, hmac, hmac512};
use lane_bytes::same;
use std::alloc::{AllocError, Global};

// Keys, messages, and their codes by SHA-256 and SHA-512, in hexadecimal (RFC 4231, section 4, which gives one code cut
// to 16 bytes). After them, keys of 63 to 65 and of 127 to 129 bytes: a key that is longer than a block is hashed.
const VECTORS: &str = "
0b0b0b0b0b0b0b0b0b0b0b0b0b0b0b0b0b0b0b0b 4869205468657265 b0344c61d8db38535ca8afceaf0bf12b881dc200c9833da726e9376c2e32cff7 87aa7cdea5ef619d4ff0b4241a1d6cb02379f4e2ce4ec2787ad0b30545e17cdedaa833b7d6b8a702038b274eaea3f4e4be9d914eeb61f1702e696c203a126854
4a656665 7768617420646f2079612077616e7420666f72206e6f7468696e673f 5bdcc146bf60754e6a042426089575c75a003f089d2739839dec58b964ec3843 164b7a7bfcf819e2e395fbe73b56e0a387bd64222e831fd610270cd7ea2505549758bf75c05a994a6d034f65f8f0e6fdcaeab1a34d4a6b4b636e070a38bce737
aaaaaaaaaaaaaaaaaaaaaaaaaaaaaaaaaaaaaaaa dddddddddddddddddddddddddddddddddddddddddddddddddddddddddddddddddddddddddddddddddddddddddddddddddddd 773ea91e36800e46854db8ebd09181a72959098b3ef8c122d9635514ced565fe fa73b0089d56a284efb0f0756c890be9b1b5dbdd8ee81a3655f83e33b2279d39bf3e848279a722c806b485a47e67c807b946a337bee8942674278859e13292fb
0102030405060708090a0b0c0d0e0f10111213141516171819 cdcdcdcdcdcdcdcdcdcdcdcdcdcdcdcdcdcdcdcdcdcdcdcdcdcdcdcdcdcdcdcdcdcdcdcdcdcdcdcdcdcdcdcdcdcdcdcdcdcd 82558a389a443c0ea4cc819899f2083a85f0faa3e578f8077a2e3ff46729665b b0ba465637458c6990e5a8c5f61d4af7e576d97ff94b872de76f8050361ee3dba91ca5c11aa25eb4d679275cc5788063a5f19741120c4f2de2adebeb10a298dd
0c0c0c0c0c0c0c0c0c0c0c0c0c0c0c0c0c0c0c0c 546573742057697468205472756e636174696f6e a3b6167473100ee06e0c796c2955552bfa6f7c0a6a8aef8b93f860aab0cd20c5 415fad6271580a531d4179bc891d87a6
aaaaaaaaaaaaaaaaaaaaaaaaaaaaaaaaaaaaaaaaaaaaaaaaaaaaaaaaaaaaaaaaaaaaaaaaaaaaaaaaaaaaaaaaaaaaaaaaaaaaaaaaaaaaaaaaaaaaaaaaaaaaaaaaaaaaaaaaaaaaaaaaaaaaaaaaaaaaaaaaaaaaaaaaaaaaaaaaaaaaaaaaaaaaaaaaaaaaaaaaaaaaaaaaaaaaaaaaaaaaaaaaaaaaaaaaaaaaaaaaaaaaaaaaaaaaaaaaaaaaaa 54657374205573696e67204c6172676572205468616e20426c6f636b2d53697a65204b6579202d2048617368204b6579204669727374 60e431591ee0b67f0d8a26aacbf5b77f8e0bc6213728c5140546040f0ee37f54 80b24263c7c1a3ebb71493c1dd7be8b49b46d1f41b4aeec1121b013783f8f3526b56d037e05f2598bd0fd2215d6a1e5295e64f73f63f0aec8b915a985d786598
aaaaaaaaaaaaaaaaaaaaaaaaaaaaaaaaaaaaaaaaaaaaaaaaaaaaaaaaaaaaaaaaaaaaaaaaaaaaaaaaaaaaaaaaaaaaaaaaaaaaaaaaaaaaaaaaaaaaaaaaaaaaaaaaaaaaaaaaaaaaaaaaaaaaaaaaaaaaaaaaaaaaaaaaaaaaaaaaaaaaaaaaaaaaaaaaaaaaaaaaaaaaaaaaaaaaaaaaaaaaaaaaaaaaaaaaaaaaaaaaaaaaaaaaaaaaaaaaaaaaaa 5468697320697320612074657374207573696e672061206c6172676572207468616e20626c6f636b2d73697a65206b657920616e642061206c6172676572207468616e20626c6f636b2d73697a6520646174612e20546865206b6579206e6565647320746f20626520686173686564206265666f7265206265696e6720757365642062792074686520484d414320616c676f726974686d2e 9b09ffa71b942fcb27635fbcd5b0e944bfdc63644f0713938a7f51535c3a35e2 e37b6a775dc87dbaa4dfa9f96e5e3ffddebd71f8867289865df5a32d20cdc944b6022cac3c4982b10d5eeb55c3e4de15134676fb6de0446065c97440fa8c6a58
6b6b6b6b6b6b6b6b6b6b6b6b6b6b6b6b6b6b6b6b6b6b6b6b6b6b6b6b6b6b6b6b6b6b6b6b6b6b6b6b6b6b6b6b6b6b6b6b6b6b6b6b6b6b6b6b6b6b6b6b6b6b6b 6d e458f5dd7e8afee6b774e5d451ae43f4d268bf11646030143d0b0231dcb02383 9b9a5f47bda3ec090509ef84629c68c19f601664a432d00c7f663589bab9a23d2fee4d1f704379e6cad1da2945b0d18a939a00885436d9d31a35877cf72b1daf
6b6b6b6b6b6b6b6b6b6b6b6b6b6b6b6b6b6b6b6b6b6b6b6b6b6b6b6b6b6b6b6b6b6b6b6b6b6b6b6b6b6b6b6b6b6b6b6b6b6b6b6b6b6b6b6b6b6b6b6b6b6b6b6b 6d 3b7a8d453e76edb519238a515105a57508d0f169f480ebeee120a9e7803289fa 6ed28c40a2fc6376678d938d10d76973426f6a335d34f614308e84bee1e0825504b4fd8a29ec9e2a4bfef2f8da5c4b39937713a46ef9f1a70bfd7378a062ac34
6b6b6b6b6b6b6b6b6b6b6b6b6b6b6b6b6b6b6b6b6b6b6b6b6b6b6b6b6b6b6b6b6b6b6b6b6b6b6b6b6b6b6b6b6b6b6b6b6b6b6b6b6b6b6b6b6b6b6b6b6b6b6b6b6b 6d c2d7d4c2256ddb097409ec0c67e1d58fa1a007fc6932cac0d892a525d08af7cc 004646c6234e37d4677ef416a14488e43eb08e3733d4bc71d39084fcac3b3564892ef9eb8870c2834caadf62b660035904c707aca855e50e87c94cf0f233d129
6b6b6b6b6b6b6b6b6b6b6b6b6b6b6b6b6b6b6b6b6b6b6b6b6b6b6b6b6b6b6b6b6b6b6b6b6b6b6b6b6b6b6b6b6b6b6b6b6b6b6b6b6b6b6b6b6b6b6b6b6b6b6b6b6b6b6b6b6b6b6b6b6b6b6b6b6b6b6b6b6b6b6b6b6b6b6b6b6b6b6b6b6b6b6b6b6b6b6b6b6b6b6b6b6b6b6b6b6b6b6b6b6b6b6b6b6b6b6b6b6b6b6b6b6b6b6b 6d be2137139e8fe202f7e3cdc98136930ceafb3c93485d4754ac2a76dc1b56cd39 c47e9f971dd26ebe2586b0a19e40bc64f127cbb226aaadc339b87fe76c3b549bddb2f7e9d3cfea185917e3fdbb708272d554227891e561d4e7516de4cd69dcf6
6b6b6b6b6b6b6b6b6b6b6b6b6b6b6b6b6b6b6b6b6b6b6b6b6b6b6b6b6b6b6b6b6b6b6b6b6b6b6b6b6b6b6b6b6b6b6b6b6b6b6b6b6b6b6b6b6b6b6b6b6b6b6b6b6b6b6b6b6b6b6b6b6b6b6b6b6b6b6b6b6b6b6b6b6b6b6b6b6b6b6b6b6b6b6b6b6b6b6b6b6b6b6b6b6b6b6b6b6b6b6b6b6b6b6b6b6b6b6b6b6b6b6b6b6b6b6b6b 6d ef699a99d6d629d2b2f2e5e926dd5fa0bc0706e2d3a5961f88ba803ac78a0e6c 9592ecd80ce4ede3e27656eda4ba50730bb9f3220571039ccd3970f290c3aed45ae9ec0522d64471f8628a1a57e686d758a1881724e54a67a9f8868d425caa02
6b6b6b6b6b6b6b6b6b6b6b6b6b6b6b6b6b6b6b6b6b6b6b6b6b6b6b6b6b6b6b6b6b6b6b6b6b6b6b6b6b6b6b6b6b6b6b6b6b6b6b6b6b6b6b6b6b6b6b6b6b6b6b6b6b6b6b6b6b6b6b6b6b6b6b6b6b6b6b6b6b6b6b6b6b6b6b6b6b6b6b6b6b6b6b6b6b6b6b6b6b6b6b6b6b6b6b6b6b6b6b6b6b6b6b6b6b6b6b6b6b6b6b6b6b6b6b6b6b 6d e60a395e9403dbd3a14c852109e7736ce7f0663123870d670d27d097a9226a51 1a960aeb80731a01e1b88da7d4379138aed9e5778f86ca8d9b1fce9d1f5dea33ac12e8ff60126388cbbd55eae65f426e0aa2a3bbda1a5fc589f61c00a21fbc98
";

fn in_two_pieces(key: &[u8], message: &[u8]) -> [u8; 32] {
    let (front, back) = message.split_at(message.len() / 2);
    let mut mac = Mac::new(key);
    mac.add(front);
    mac.add(back);
    mac.finish()
}

fn in_two_pieces_512(key: &[u8], message: &[u8]) -> [u8; 64] {
    let (front, back) = message.split_at(message.len() / 2);
    let mut mac = Mac512::new(key);
    mac.add(front);
    mac.add(back);
    mac.finish()
}

// Whether a code is this one, or begins with it if it is cut.
fn is_code(found: &[u8], code: &[u8]) -> bool {
    code.len() >= 16 && found.starts_with(code)
}

fn is_coded(key: &[u8], message: &[u8], code: &[u8]) -> bool {
    let whole = hmac(key, message);
    is_code(&whole, code) && same(&whole, &in_two_pieces(key, message))
}

fn is_coded_512(key: &[u8], message: &[u8], code: &[u8]) -> bool {
    let whole = hmac512(key, message);
    is_code(&whole, code) && same(&whole, &in_two_pieces_512(key, message))
}

fn is_vector(alloc: Global, row: &str) -> Result<bool, AllocError> {
    let fields = fields_of(alloc, row)?;
    match fields.as_slice() {
        [key, message, code, code_512] => Ok(
            is_coded(key.as_slice(), message.as_slice(), code.as_slice())
                && is_coded_512(key.as_slice(), message.as_slice(), code_512.as_slice()),
        ),
        _ => Ok(false),
    }
}

#[test]
fn the_vectors_of_rfc_4231_agree_in_one_piece_and_in_two(
    rt: HostRuntime,
) -> Result<(), AllocError> {
    for row in VECTORS.trim().lines() {
        assert!(rt; is_vector(rt.alloc(), row)?, "{row}");
    }
    Ok(())
}
