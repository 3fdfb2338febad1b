//! Sessions of `make`. The expected bytes and lines were computed by another program.

use crate::session::BEGUN;
use crate::tests::goes::both_go;
use std::alloc::AllocError;

/// Envelopes; the second by HMAC 512/512, the third with its install apart, made again of what `show` puts of it.
const MADE: &str = r#"text d.json
{"sequence":1,"components":[["00"]],"shared":[["set",{"digest":{"file":"abc.img"},"size":{"file":"abc.img"}}]],"validate":[["match",15]],"invoke":[["invoke",15]]}

make d.json k o.suit
0
made 163

holds o.suit
d86ba2025853825824822f58201a9560565e58d0ad019dae827e1def7755aad759c564dcc11446bb8629c035b1582ad18443a10105a0f6582020d07a0b6d6e8c35313524a9e71b4f7857551ac0e818340d4076635db40631b3035847a501010201035835a2028181410004582c8214a2035824822f5820ba7816bf8f01cfea414140de5dae2223b00361a396177a9cb410ff61f20015ad0e03074382030f094382170f

text mac.json
{"sequence":1,"components":[["00"]],"shared":[["set",{"digest":{"file":"abc.img"},"size":{"file":"abc.img"}}]],"validate":[["match",15]],"invoke":[["invoke",15]],"mac":"hmac512"}

make mac.json k o
0
made 195

holds o
d86ba2025873825824822f58201a9560565e58d0ad019dae827e1def7755aad759c564dcc11446bb8629c035b1584ad18443a10107a0f658403ee60f9faf324877936860526b711aba09008146f336339a18725e2f68fa466b9287e5b54e3f33c430474dc53ecf18fa313786d32e47870d6bcd8065591a2b10035847a501010201035835a2028181410004582c8214a2035824822f5820ba7816bf8f01cfea414140de5dae2223b00361a396177a9cb410ff61f20015ad0e03074382030f094382170f

show o k
0
tagged yes
block 0 mac0
member shared here
member validate here
member load none
member invoke here
member payload-fetch none
member install none
member text none
authentic

text both.json
{"sequence":1,"components":[["00"]],"shared":[["set",{"digest":{"file":"abc.img"},"size":{"file":"abc.img"}}]],"validate":[["match",15]],"invoke":[["invoke",15]],"mac":"hmac512","algorithm":"sha512"}

make both.json k o
0
made 228

holds o
d86ba202589482584582382b58405b7f3e7700c6aa673f43ccd903c8f7008e3621718dc6964235b369b95a0bd05d6845776bb410d7da8f59bc48fca81b24d63f6aaecb4cdeb96be1ed80204e9924584ad18443a10107a0f65840d37fe969fbddeea8574c19758cb148ec78d499025ddb0318e210bd8f85b198cc3c526f120edc2d9e113f22ae0dc7bcef9a55d604274ceb1aa5507437fb80c399035847a501010201035835a2028181410004582c8214a2035824822f5820ba7816bf8f01cfea414140de5dae2223b00361a396177a9cb410ff61f20015ad0e03074382030f094382170f

text long-digest.json
{"sequence":1,"components":[["00"]],"shared":[["set",{"digest":{"algorithm":"sha512","file":"abc.img"},"size":{"file":"abc.img"}}]],"validate":[["match",15]],"invoke":[["invoke",15]]}

make long-digest.json k o
0
made 196

check o
0
update safe
invocation safe

text apart-512.json
{"sequence":1,"components":[["00"]],"shared":[["set",{"digest":{"file":"abc.img"},"size":{"file":"abc.img"}}]],"validate":[["match",15]],"invoke":[["invoke",15]],"install":[["set",{"uri":"img"}],["fetch",15]],"sever":[["install","sha512"]]}

make apart-512.json k o
0
made 245

show o
0
{"components":[["00"]],"install":[["set",{"uri":"img"}],["fetch",15]],"invoke":[["invoke",15]],"sequence":1,"sever":[["install","sha512"]],"shared":[["set",{"digest":"ba7816bf8f01cfea414140de5dae2223b00361a396177a9cb410ff61f20015ad","size":3}]],"validate":[["match",15]]}

text apart.json
{"sequence":1,"components":[["00"]],"shared":[["set",{"digest":{"file":"abc.img"},"size":{"file":"abc.img"}}]],"validate":[["match",15]],"invoke":[["invoke",15]],"install":[["set",{"uri":"img"}],["fetch",15]],"sever":["install"]}

make apart.json k apart
0
made 212

show apart
0
{"components":[["00"]],"install":[["set",{"uri":"img"}],["fetch",15]],"invoke":[["invoke",15]],"sequence":1,"sever":["install"],"shared":[["set",{"digest":"ba7816bf8f01cfea414140de5dae2223b00361a396177a9cb410ff61f20015ad","size":3}]],"validate":[["match",15]]}

text again.json
{"components":[["00"]],"install":[["set",{"uri":"img"}],["fetch",15]],"invoke":[["invoke",15]],"sequence":1,"sever":["install"],"shared":[["set",{"digest":"ba7816bf8f01cfea414140de5dae2223b00361a396177a9cb410ff61f20015ad","size":3}]],"validate":[["match",15]]}

make again.json k again
0
made 212

holds again
d86ba3025853825824822f5820f7da94cc0c65d8e7f6fa7db8ae3289288138a0b64066032a5650208bbad40033582ad18443a10105a0f65820dfe11ba524c51b8c224afc07979afbe8972fb5aed5391e88f9d7f8c02248961103586ca601010201035835a2028181410004582c8214a2035824822f5820ba7816bf8f01cfea414140de5dae2223b00361a396177a9cb410ff61f20015ad0e03074382030f094382170f14822f58208cec887aebc30d8879f0a5cdf13265bec7d50e98670afe09827264786de89233144a8414a11563696d67150f"#;

/// The first flaw of a description, and of files the one whose field comes first. Nothing is stored.
const REFUSED: &str = r##"text r.json
{

make r.json k r.suit
3
bad json

text r.json
{"components":[["00"]],"sequence":01}

make r.json k r.suit
3
bad json

text r.json
[]

make r.json k r.suit
3
bad field 

text r.json
{"components":[["00"]],"sequence":1,"sequence":"1"}

make r.json k r.suit
3
bad field /sequence

text r.json
{"components":[["00"]]}

make r.json k r.suit
3
bad field /sequence

text r.json
{"components":[],"sequence":1}

make r.json k r.suit
3
bad field /components

text r.json
{"components":[["00"],["01"],["02"],["03"],["04"],["05"],["06"],["07"],["08"]],"sequence":1}

make r.json k r.suit
3
9 components

text r.json
{"components":[["00"],["01"],["01"],["00"]],"sequence":1}

make r.json k r.suit
3
components 1 and 2 are alike

text r.json
{"components":[["00","zz"]],"sequence":1}

make r.json k r.suit
3
bad hex /components/0/1

text r.json
{"components":[["00"]],"sequence":1,"a/b~":1}

make r.json k r.suit
3
bad field /a~1b~0

text r.json
{"components":[["00"]],"sequence":1,"validate":[["match",16]]}

make r.json k r.suit
3
bad field /validate/0/1

text r.json
{"components":[["00"]],"sequence":1,"validate":[["index",[0,1]]]}

make r.json k r.suit
3
bad field /validate/0/1/1

text r.json
{"components":[["00"]],"sequence":1,"shared":[["abort",0],["write",0]]}

make r.json k r.suit
3
bad field /shared/1/0

text r.json
{"components":[["00"]],"sequence":1,"validate":[["try",[null,[["match",0]]]]]}

make r.json k r.suit
3
bad field /validate/0/1/0

text r.json
{"components":[["00"]],"sequence":1,"shared":[["set",{"sizes":1}]]}

make r.json k r.suit
3
bad field /shared/0/1/sizes

text r.json
{"components":[["00"]],"sequence":1,"shared":[["set",{"vendor":"fa6b4a53d5ad-5fdf-be9d-e663e4d41ffe"}]]}

make r.json k r.suit
3
bad uuid /shared/0/1/vendor

text r.json
{"components":[["00"]],"sequence":1,"shared":[["set",{"digest":"00"}]]}

make r.json k r.suit
3
bad hex /shared/0/1/digest

text r.json
{"components":[["00"]],"sequence":1,"install":{"digest":"0g"}}

make r.json k r.suit
3
bad hex /install/digest

text r.json
{"components":[["00"]],"sequence":1,"sever":["text"],"text":"a0a0"}

make r.json k r.suit
3
bad field /text

text r.json
{"components":[["00"]],"sequence":1,"sever":["validate"],"validate":[["match",0]]}

make r.json k r.suit
3
bad field /sever/0

text r.json
{"components":[["00"]],"sequence":1,"payloads":{"#a":{"hex":"0"}}}

make r.json k r.suit
3
bad hex /payloads/#a/hex

text r.json
{"components":[["00"]],"sequence":1,"kid":"kk"}

make r.json k r.suit
3
bad hex /kid

text r.json
{"components":[["00"]],"sequence":1,"mac":"hmac384"}

make r.json k r.suit
3
bad field /mac

text r.json
{"components":[["00"]],"sequence":1,"algorithm":"sha224"}

make r.json k r.suit
3
bad field /algorithm

text r.json
{"components":[["00"]],"sequence":1,"install":{"digest":"000000000000000000000000000000000000000000000000000000000000000000"}}

make r.json k r.suit
3
bad hex /install/digest

text r.json
{"components":[["00"]],"sequence":1,"text":"00","sever":[["text","sha256"],"text"]}

make r.json k r.suit
3
bad field /sever/1

text r.json
{"components":[["00"]],"sequence":1,"text":"00","sever":[["text"]]}

make r.json k r.suit
3
bad field /sever/0

text r.json
{"components":[["00"]],"sequence":1,"text":"00","sever":[["text","sha224"]]}

make r.json k r.suit
3
bad field /sever/0/1

text r.json
{"components":[["00"]],"sequence":1,"text":"00","sever":[["install","sha224"]]}

make r.json k r.suit
3
bad field /sever/0/0

text r.json
{"components":[["00"]],"sequence":1,"mac":7}

make r.json k r.suit
3
bad field /mac

text r.json
{"components":[["00"]],"sequence":1,"payloads":{"#a":{"file":"b"}}}

make r.json k r.suit
20
absent b

text r.json
{"components":[["00"]],"sequence":1,"shared":[["set",{"size":{"file":"q"},"digest":{"file":"r"}}]]}

make r.json k r.suit
20
absent r

lacks r.suit"##;

/// Keys, descriptions, images and envelopes at their longest, and one byte beyond. A size is spelled in one byte, or in five.
const LIMITS: &str = r#"text d.json
{"sequence":1,"components":[["00"]],"shared":[["set",{"digest":{"file":"abc.img"},"size":{"file":"abc.img"}}]],"validate":[["match",15]],"invoke":[["invoke",15]]}

text empty

make d.json empty o
3
empty key

file one
01

make d.json one o
0
made 163

file longest
01*64

make d.json longest o
0
made 163

file longer
01*65

make d.json longer o
21
too long longer

change long.json d.json
162 0 20*65374

make long.json k o
0
made 163

change longer.json d.json
162 0 20*65375

make longer.json k o
21
too long longer.json

file abc.img
00*4194304

make d.json k o
0
made 167

file abc.img
00*4194305

make d.json k o
21
too long abc.img

text carries.json
{"components":[["00"]],"sequence":1,"payloads":{"a":{"file":"p"}}}

file p
00*1048465

make carries.json k o
0
made 1048576

file p
00*1048466

make carries.json k o
21
too long envelope

text holds.json
{"sequence":1,"components":[["00"]],"validate":[["set",{"content":{"file":"p"}}]]}

file p
00*65419

make holds.json k o
0
made 65536

file p
00*65420

make holds.json k o
21
too long envelope"#;

/// Descriptions as they are written: without optional fields, then conditions, directives, selections, parameters, an empty
/// override, sequences inside, the other members, members that are left out, and identifiers. Last one with all that
/// stands beside the manifest.
const WRITTEN: &str = r##"text 0.json
{"components":[["00"]],"sequence":18446744073709551615}

make 0.json k 0
0
made 112

show 0
0
{"components":[["00"]],"sequence":18446744073709551615}

text 1.json
{"components":[["00"]],"sequence":0,"validate":[["vendor",15],["class",0],["match",1],["slot",2],["content",3],["abort",4],["device",5]]}

make 1.json k 1
0
made 123

show 1
0
{"components":[["00"]],"sequence":0,"validate":[["vendor",15],["class",0],["match",1],["slot",2],["content",3],["abort",4],["device",5]]}

text 2.json
{"components":[["00"]],"install":[["write",0],["fetch",1],["copy",2],["invoke",14],["swap",15]],"sequence":1}

make 2.json k 2
0
made 119

show 2
0
{"components":[["00"]],"install":[["write",0],["fetch",1],["copy",2],["invoke",14],["swap",15]],"sequence":1}

text 3.json
{"components":[["00"],["01"]],"sequence":1,"shared":[["index",1],["index",true],["index",[1,0,1]]]}

make 3.json k 3
0
made 120

show 3
0
{"components":[["00"],["01"]],"sequence":1,"shared":[["index",1],["index",true],["index",[1,0,1]]]}

text 4.json
{"components":[["00"]],"load":[["set",{"args":"00ff","class":"00112233-4455-6677-8899-aabbccddeeff","content":"0102","device":"ffffffff-ffff-ffff-ffff-fffffffffffe","digest":"ba7816bf8f01cfea414140de5dae2223b00361a396177a9cb410ff61f20015ad","size":18446744073709551615,"slot":0,"soft":false,"source":0,"strict":true,"uri":"#é","vendor":"00000000-0000-0000-0000-000000000000"}]],"sequence":1}

make 4.json k 4
0
made 236

show 4
0
{"components":[["00"]],"load":[["set",{"args":"00ff","class":"00112233-4455-6677-8899-aabbccddeeff","content":"0102","device":"ffffffff-ffff-ffff-ffff-fffffffffffe","digest":"ba7816bf8f01cfea414140de5dae2223b00361a396177a9cb410ff61f20015ad","size":18446744073709551615,"slot":0,"soft":false,"source":0,"strict":true,"uri":"#é","vendor":"00000000-0000-0000-0000-000000000000"}]],"sequence":1}

text 5.json
{"components":[["00"]],"sequence":1,"shared":[["set",{}]]}

make 5.json k 5
0
made 109

show 5
0
{"components":[["00"]],"sequence":1,"shared":[["set",{}]]}

text 6.json
{"components":[["00"]],"sequence":1,"validate":[["try",[[["match",15]],[["run",[["try",[[["abort",15]],null]]]]]]]]}

make 6.json k 6
0
made 127

show 6
0
{"components":[["00"]],"sequence":1,"validate":[["try",[[["match",15]],[["run",[["try",[[["abort",15]],null]]]]]]]]}

text 7.json
{"components":[["00"]],"invoke":[["invoke",15]],"payload-fetch":[["fetch",15]],"reference":"http://a","sequence":1,"text":"a0"}

make 7.json k 7
0
made 128

show 7
0
{"components":[["00"]],"invoke":[["invoke",15]],"payload-fetch":[["fetch",15]],"reference":"http://a","sequence":1,"text":"a0"}

text 8.json
{"components":[["00"]],"install":{"digest":"ba7816bf8f01cfea414140de5dae2223b00361a396177a9cb410ff61f20015ad"},"payload-fetch":{"digest":"e3b0c44298fc1c149afbf4c8996fb92427ae41e4649b934ca495991b7852b855"},"sequence":1,"text":{"digest":"0000000000000000000000000000000000000000000000000000000000000001"}}

make 8.json k 8
0
made 216

show 8
0
{"components":[["00"]],"install":{"digest":"ba7816bf8f01cfea414140de5dae2223b00361a396177a9cb410ff61f20015ad"},"payload-fetch":{"digest":"e3b0c44298fc1c149afbf4c8996fb92427ae41e4649b934ca495991b7852b855"},"sequence":1,"text":{"digest":"0000000000000000000000000000000000000000000000000000000000000001"}}

text 9.json
{"components":[[],["00","ff"],[""]],"sequence":1}

make 9.json k 9
0
made 109

show 9
0
{"components":[[],["00","ff"],[""]],"sequence":1}

text severed.json
{"sequence":1,"components":[["00"]],"text":"a0","sever":["text"],"kid":"01","payloads":{"a":{"hex":"00"},"aa":{"file":"abc.img"},"b":{"hex":""}}}

make severed.json k severed
0
made 162

holds severed
d86ba6025856825824822f58202bd8d18e7852bc3ce814b10229ee8975de4c48fde4291b7eb49d45ed01889cbb582dd18443a10105a1044101f658203f1f91e48381e5f3e3f5714753bf5ef16ad309394d11a8dc4c661c00a2e6a343035832a4010102010346a1028181410017822f5820ba59ea8f4f88a2fcd9aaf9a83d236bb75f1f528637b999a25866124a877ffb151741a06161410061624062616143616263"##;

#[test]
fn envelopes_are_made(rt: HostRuntime) -> Result<(), AllocError> {
    assert!(rt; both_go(rt.alloc(), (MADE, REFUSED))?);
    assert!(rt; both_go(rt.alloc(), (BEGUN, LIMITS))?);
    assert!(rt; both_go(rt.alloc(), (BEGUN, WRITTEN))?);
    Ok(())
}
