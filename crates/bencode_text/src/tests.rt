//! What no clause says: texts as they stand in replies, and that each call succeeds.

ghost use Rattle.std.specs.Prelude.{◌≡◌, ◌<◌, ◌++◌, ◌∷◌, codes, decimal, length, IfOk, IsTrue, OnOk};
ghost use Rattle.bencode_text.specs.Bencode.{string_text, is_above};
ghost use Rattle.bencode_text.specs.Draft.{takes_key, with_key, with_value};

use super::*;
use ot_base::Bytes;
use std::alloc::{AllocError, Global};
use std::test::Fail;

/// The reply to an announce that is refused.
#[tactic(auto, using(crate::proofs::KnownDecimals::known_decimals))]
fn refusal(alloc: Global, reason: &[u8]) -> Result<Bytes, AllocError>
    ensures { IfOk result (λ text. text
        ≡ codes "d14:failure reason"
        ++ (string_text (decimal (length reason.now)) reason.now ++ codes "e")) }
{
    let mut writer = Writer::new(alloc);
    writer.begin_dict()?;
    writer.key(b"failure reason")?;
    writer.bytes(reason)?;
    writer.end()?;
    Ok(writer.finish())
}

/// The reply to an announce.
fn announcement(
    alloc: Global,
    complete: u64,
    downloaded: u64,
    incomplete: u64,
    peers: &[u8],
) -> Result<Bytes, AllocError>
    ensures { IfOk result (λ text. text
        ≡ codes "d8:completei" ++ (decimal complete
        ++ (codes "e10:downloadedi" ++ (decimal downloaded
        ++ (codes "e10:incompletei" ++ (decimal incomplete
        ++ (codes "e8:intervali1800e12:min intervali900e5:peers"
        ++ (string_text (decimal (length peers.now)) peers.now ++ codes "e")))))))) }
{
    let mut writer = Writer::new(alloc);
    writer.begin_dict()?;
    writer.key(b"complete")?;
    writer.int(complete)?;
    writer.key(b"downloaded")?;
    writer.int(downloaded)?;
    writer.key(b"incomplete")?;
    writer.int(incomplete)?;
    writer.key(b"interval")?;
    writer.int(1800)?;
    writer.key(b"min interval")?;
    writer.int(900)?;
    writer.key(b"peers")?;
    writer.bytes(peers)?;
    writer.end()?;
    Ok(writer.finish())
}

/// Adds the row of a torrent to a reply to a scrape.
fn add_row(writer: &mut Writer, hash: &[u8; 20], complete: u64) -> Result<(), AllocError>
    requires due { IsTrue (takes_key writer.old.dicts hash.now) }
    requires room { length writer.old.dicts < DEEPEST }
    ensures { OnOk result (writer.new
        ≡ with_value (with_key writer.old hash.now)
        (codes "d8:completei" ++ (decimal complete ++ codes "ee"))) }
{
    writer.key(hash)?;
    writer.begin_dict()?;
    writer.key(b"complete")?;
    writer.int(complete)?;
    writer.end()?;
    Ok(())
}

/// The reply to a scrape of two torrents.
fn two_rows(
    alloc: Global,
    first: &[u8; 20],
    second: &[u8; 20],
    complete: u64,
) -> Result<Bytes, AllocError>
    requires { IsTrue (is_above (Some first.now) second.now) }
    ensures { let row = codes "d8:completei" ++ (decimal complete ++ codes "ee") in
        IfOk result (λ text. text
        ≡ codes "d5:filesd20:" ++ (first.now ++ (row
        ++ (codes "20:" ++ (second.now ++ (row ++ codes "ee")))))) }
{
    let mut writer = Writer::new(alloc);
    writer.begin_dict()?;
    writer.key(b"files")?;
    writer.begin_dict()?;
    add_row(&mut writer, first, complete)?;
    add_row(&mut writer, second, complete)?;
    writer.end()?;
    writer.end()?;
    Ok(writer.finish())
}

#[test]
fn replies_read_as_they_stand(rt: HostRuntime) -> Result<(), Fail> {
    let refused = refusal(rt.alloc(), b"missing info_hash")?;
    assert_eq!(rt;
        refused.as_slice(),
        b"d14:failure reason17:missing info_hashe".as_slice()
    );
    let announced = announcement(rt.alloc(), 1, 0, 20, b"abcdef")?;
    assert_eq!(rt;
        announced.as_slice(),
        b"d8:completei1e10:downloadedi0e10:incompletei20e\
        8:intervali1800e12:min intervali900e5:peers6:abcdefe"
            .as_slice()
    );
    let scraped = two_rows(
        rt.alloc(),
        b"aaaaaaaaaaaaaaaaaaaa",
        b"aaaaaaaaaaaaaaaaaaab",
        7,
    )?;
    assert_eq!(rt;
        scraped.as_slice(),
        b"d5:filesd20:aaaaaaaaaaaaaaaaaaaad8:completei7ee\
        20:aaaaaaaaaaaaaaaaaaabd8:completei7eeee"
            .as_slice()
    );
    for (label, text) in [
        ("refused", refused),
        ("announced", announced),
        ("scraped", scraped),
    ] {
        assert!(rt; is_canonical(text.as_slice()), "{label}");
    }
    Ok(())
}

#[test]
fn canonical_texts_are_told(rt: HostRuntime) -> Result<(), Fail> {
    let rows: [(&str, &[u8], bool); 34] = [
        ("empty text", b"", false),
        ("string", b"4:spam", true),
        ("empty string", b"0:", true),
        ("string too short", b"4:spa", false),
        ("string and a byte", b"4:spame", false),
        ("length with a leading zero", b"04:spam", false),
        ("length of two zeros", b"00:", false),
        ("no colon", b"4spam", false),
        ("length alone", b"4", false),
        ("length of 2^64", b"18446744073709551616:", false),
        ("integer", b"i3e", true),
        ("negative integer", b"i-3e", true),
        (
            "integer of 30 digits",
            b"i123456789012345678901234567890e",
            true,
        ),
        ("zero", b"i0e", true),
        ("minus zero", b"i-0e", false),
        ("leading zero", b"i03e", false),
        ("minus and a leading zero", b"i-03e", false),
        ("no digits", b"ie", false),
        ("minus alone", b"i-e", false),
        ("plus", b"i+3e", false),
        ("no end of an integer", b"i3", false),
        ("list", b"l4:spam4:eggse", true),
        ("empty list", b"le", true),
        ("list with no end", b"l4:spam", false),
        ("dictionary", b"d3:cow3:moo4:spam4:eggse", true),
        ("empty dictionary", b"de", true),
        ("list in a dictionary", b"d4:spaml1:a1:bee", true),
        ("keys out of order", b"d4:spam4:eggs3:cow3:mooe", false),
        ("equal keys", b"d1:ai1e1:ai2ee", false),
        ("a key that begins the next", b"d1:ai1e2:aai2ee", true),
        ("a key above 127 last", b"d1:zi1e1:\xffi2ee", true),
        ("key without a value", b"d1:ae", false),
        ("key that is an integer", b"di1ei2ee", false),
        ("trailing byte", b"dex", false),
    ];
    for (label, text, canonical) in rows {
        assert_eq!(rt; is_canonical(text), canonical, "{label}");
    }
    Ok(())
}

/// So many empty lists, one in the other.
fn nested(alloc: Global, depth: usize) -> Result<Vec<u8>, AllocError> {
    let mut text = Vec::new(alloc);
    for _ in 0..depth {
        text.push(b'l')?;
    }
    for _ in 0..depth {
        text.push(b'e')?;
    }
    Ok(text)
}

#[test]
fn at_most_64_are_open(rt: HostRuntime) -> Result<(), Fail> {
    for (depth, canonical) in [(1, true), (64, true), (65, false), (1000, false)] {
        let text = nested(rt.alloc(), depth)?;
        assert_eq!(rt; is_canonical(&text), canonical, "{depth} lists");
    }
    Ok(())
}
