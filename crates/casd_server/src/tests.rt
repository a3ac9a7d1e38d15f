use super::*;
use crate::parse::parse;
use casd_base::MemLink;
use std::alloc::Global;
use std::process::Abort;
use std::test::*;

const WORDS: [&str; 2] = ["replay", "records"];

// What a replay of the input writes, and its status: reads of at most so many bytes, and these calls failing.
fn run(
    alloc: Global,
    input: &[u8],
    cuts: &[usize],
    failing: &[u64],
    failing_writes: &[u64],
) -> Result<(u8, Vec<u8>), Fail> {
    let input = Vec::from_slice(alloc, input)?;
    let cuts = Vec::from_slice(alloc, cuts)?;
    let failing = Vec::from_slice(alloc, failing)?;
    let failing_writes = Vec::from_slice(alloc, failing_writes)?;
    let mut source = MemLink::new(alloc, input, cuts, failing);
    let mut sink = MemLink::new(alloc, Vec::new(alloc), Vec::new(alloc), failing_writes);
    let status = replay(alloc, &WORDS, &mut source, &mut sink);
    Ok((status, Vec::from_slice(alloc, sink.written())?))
}

fn expect(rt: &impl Abort, shows: &str, ran: (u8, Vec<u8>), status: u8, output: &[u8]) {
    let (ended, written) = ran;
    assert_eq!(rt; written.as_slice(), output, "{shows}");
    assert_eq!(rt; ended, status, "{shows}");
}

// Each case: what it shows, the line, and the line of its answer. Digests and messages were made by bench/records.py,
// which shares nothing with the program.
const CASES: [(&str, &str, &str); 22] = [
    (
        "a blob is stored",
        "1 BatchUpdateBlobs 124b0a440a406261373831366266386630316366656134313431343064653564616532323233623030333631613339363137376139636234313066663631663230303135616410031203616263",
        "1 BatchUpdateBlobs 0 0a480a440a406261373831366266386630316366656134313431343064653564616532323233623030333631613339363137376139636234313066663631663230303135616410031200 -",
    ),
    (
        "another size is refused",
        "1 BatchUpdateBlobs 124b0a440a406261373831366266386630316366656134313431343064653564616532323233623030333631613339363137376139636234313066663631663230303135616410041203616263",
        "1 BatchUpdateBlobs 0 0add010a440a406261373831366266386630316366656134313431343064653564616532323233623030333631613339363137376139636234313066663631663230303135616410041294010803128f0177616e7420626137383136626638663031636665613431343134306465356461653232323362303033363161333936313737613963623431306666363166323030313561642f342c20676f7420626137383136626638663031636665613431343134306465356461653232323362303033363161333936313737613963623431306666363166323030313561642f33 -",
    ),
    (
        "a hash in upper case is no digest",
        "1 BatchUpdateBlobs 124b0a440a404241373831364246384630314346454134313431343044453544414532323233423030333631413339363137374139434234313046463631463230303135414410031203616263",
        "1 BatchUpdateBlobs 3 - bad digest",
    ),
    (
        "an absent digest is none",
        "1 BatchUpdateBlobs 12051203616263",
        "1 BatchUpdateBlobs 3 - bad digest",
    ),
    (
        "a negative size is no digest",
        "1 BatchUpdateBlobs 12540a4d0a406261373831366266386630316366656134313431343064653564616532323233623030333631613339363137376139636234313066663631663230303135616410ffffffffffffffffff011203616263",
        "1 BatchUpdateBlobs 3 - bad digest",
    ),
    (
        "an overlong varint and an unknown field are taken",
        "1 BatchUpdateBlobs 124c0a450a406261373831366266386630316366656134313431343064653564616532323233623030333631613339363137376139636234313066663631663230303135616410830012036162637801",
        "1 BatchUpdateBlobs 0 0a480a440a406261373831366266386630316366656134313431343064653564616532323233623030333631613339363137376139636234313066663631663230303135616410031200 -",
    ),
    (
        "a digest in two parts is joined",
        "1 BatchUpdateBlobs 124d0a420a40626137383136626638663031636665613431343134306465356461653232323362303033363161333936313737613963623431306666363166323030313561640a0210031203616263",
        "1 BatchUpdateBlobs 0 0a480a440a406261373831366266386630316366656134313431343064653564616532323233623030333631613339363137376139636234313066663631663230303135616410031200 -",
    ),
    (
        "the last data counts",
        "1 BatchUpdateBlobs 12500a440a40626137383136626638663031636665613431343134306465356461653232323362303033363161333936313737613963623431306666363166323030313561641003120378797a1203616263",
        "1 BatchUpdateBlobs 0 0a480a440a406261373831366266386630316366656134313431343064653564616532323233623030333631613339363137376139636234313066663631663230303135616410031200 -",
    ),
    (
        "no message",
        "1 BatchUpdateBlobs -",
        "1 BatchUpdateBlobs 3 - no message",
    ),
    (
        "two messages",
        "1 BatchUpdateBlobs .,.",
        "1 BatchUpdateBlobs 3 - more than one message",
    ),
    (
        "a message that is cut short",
        "1 BatchUpdateBlobs 0a",
        "1 BatchUpdateBlobs 3 - bad message",
    ),
    (
        "an instance name that is no text",
        "1 BatchUpdateBlobs 0a01ff124b0a440a406261373831366266386630316366656134313431343064653564616532323233623030333631613339363137376139636234313066663631663230303135616410031203616263",
        "1 BatchUpdateBlobs 3 - bad message",
    ),
    (
        "a request of no blobs",
        "1 BatchUpdateBlobs .",
        "1 BatchUpdateBlobs 0 . -",
    ),
    (
        "the empty blob",
        "7 BatchUpdateBlobs 12440a420a4065336230633434323938666331633134396166626634633839393666623932343237616534316534363439623933346361343935393931623738353262383535",
        "7 BatchUpdateBlobs 0 0a460a420a40653362306334343239386663316331343961666266346338393936666239323432376165343165343634396239333463613439353939316237383532623835351200 -",
    ),
    (
        "two blobs, one of them wrong",
        "1 BatchUpdateBlobs 124b0a440a406261373831366266386630316366656134313431343064653564616532323233623030333631613339363137376139636234313066663631663230303135616410031203616263124b0a440a406261373831366266386630316366656134313431343064653564616532323233623030333631613339363137376139636234313066663631663230303135616410031203616264",
        "1 BatchUpdateBlobs 0 0a480a440a4062613738313662663866303163666561343134313430646535646165323232336230303336316133393631373761396362343130666636316632303031356164100312000add010a440a406261373831366266386630316366656134313431343064653564616532323233623030333631613339363137376139636234313066663631663230303135616410031294010803128f0177616e7420626137383136626638663031636665613431343134306465356461653232323362303033363161333936313737613963623431306666363166323030313561642f332c20676f7420613532643135396632363262326336646462373234613631383430626566633336656233306338383837376134303330623635636265383632393834343963392f33 -",
    ),
    (
        "SHA-256 named",
        "1 BatchUpdateBlobs 124b0a440a4062613738313662663866303163666561343134313430646535646165323232336230303336316133393631373761396362343130666636316632303031356164100312036162632801",
        "1 BatchUpdateBlobs 0 0a480a440a406261373831366266386630316366656134313431343064653564616532323233623030333631613339363137376139636234313066663631663230303135616410031200 -",
    ),
    (
        "another digest function",
        "1 BatchUpdateBlobs 124b0a440a4062613738313662663866303163666561343134313430646535646165323232336230303336316133393631373761396362343130666636316632303031356164100312036162632802",
        "1 BatchUpdateBlobs 12 - not built",
    ),
    (
        "a compressor",
        "1 BatchUpdateBlobs 124d0a440a4062613738313662663866303163666561343134313430646535646165323232336230303336316133393631373761396362343130666636316632303031356164100312036162631801",
        "1 BatchUpdateBlobs 12 - not built",
    ),
    (
        "a word that isn't built",
        "1 GetCapabilities .",
        "1 GetCapabilities 12 - not built",
    ),
    (
        "the numbers of an empty store",
        "0 Usage -",
        "0 Usage 0 0 0 1610612736 2147483648",
    ),
    ("a pass over an empty store", "0 Pass -", "0 Pass 0 0"),
    ("a seat's owner goes", "9 Close -", "9 Close"),
];

#[test]
fn each_record_has_its_answer(rt: HostRuntime) -> Result<(), Fail> {
    for (shows, line, answer) in CASES {
        let output = format!(in rt.alloc(); "{answer}\n")?;
        // A last line counts without its newline too.
        let ran = run(rt.alloc(), line.as_bytes(), &[], &[], &[])?;
        expect(&rt, shows, ran, 0, output.as_bytes());
        let input = format!(in rt.alloc(); "{line}\n")?;
        let ran = run(rt.alloc(), input.as_bytes(), &[1, 1, 2, 3, 5], &[], &[])?;
        expect(&rt, shows, ran, 0, output.as_bytes());
    }
    Ok(())
}

#[test]
fn a_blob_is_stored_once_and_a_refused_one_is_not(rt: HostRuntime) -> Result<(), Fail> {
    let alloc = rt.alloc();
    let [stored, refused, ..] = CASES;
    // the upload, how often it is asked for, and the numbers after it
    let cases = [
        (stored, 2, "0 Usage 3 0 1 1610612736 2147483648"),
        (refused, 1, "0 Usage 0 0 0 1610612736 2147483648"),
    ];
    for ((shows, line, answer), times, numbers) in cases {
        let mut input = String::new(alloc);
        let mut output = String::new(alloc);
        for _ in 0..times {
            input.push_str(format!(in alloc; "{line}\n")?.as_str())?;
            output.push_str(format!(in alloc; "{answer}\n")?.as_str())?;
        }
        input.push_str("0 Usage -\n")?;
        output.push_str(format!(in alloc; "{numbers}\n")?.as_str())?;
        let ran = run(alloc, input.as_bytes(), &[], &[], &[])?;
        expect(&rt, shows, ran, 0, output.as_bytes());
    }
    Ok(())
}

#[test]
fn a_run_ends_where_it_has_to(rt: HostRuntime) -> Result<(), Fail> {
    let alloc = rt.alloc();
    let cases: [(&str, &str, &[u64], &[u64], u8, &str); 9] = [
        ("no input", "", &[], &[], 0, ""),
        (
            "a malformed line ends the run",
            "1 BatchUpdateBlobs .\n1 Nothing -\n1 BatchUpdateBlobs .\n",
            &[],
            &[],
            3,
            "1 BatchUpdateBlobs 0 . -\nmalformed line 2\n",
        ),
        (
            "an empty line is malformed",
            "\n",
            &[],
            &[],
            3,
            "malformed line 1\n",
        ),
        (
            "a malformed last line",
            "9 Close -\n9 Close",
            &[],
            &[],
            3,
            "9 Close\nmalformed line 2\n",
        ),
        (
            "lines share one store and keep their seats",
            "2 EndStage -\n2 Close -\n0 Pass -\n",
            &[],
            &[],
            0,
            "2 EndStage 12 - not built\n2 Close\n0 Pass 0 0\n",
        ),
        (
            "the first read fails",
            "1 BatchUpdateBlobs .\n",
            &[0],
            &[],
            4,
            "",
        ),
        (
            "the read at the end fails",
            "1 BatchUpdateBlobs .\n1 Close -",
            &[1],
            &[],
            4,
            "1 BatchUpdateBlobs 0 . -\n",
        ),
        (
            "the first write fails",
            "1 BatchUpdateBlobs .\n",
            &[],
            &[0],
            5,
            "",
        ),
        (
            "the second write fails",
            "1 BatchUpdateBlobs .\n1 Nothing -\n",
            &[],
            &[1],
            5,
            "1 BatchUpdateBlobs 0 . -\n",
        ),
    ];
    for (shows, input, reads, writes, status, output) in cases {
        let ran = run(alloc, input.as_bytes(), &[], reads, writes)?;
        expect(&rt, shows, ran, status, output.as_bytes());
    }
    Ok(())
}

#[test]
fn other_words_are_refused(rt: HostRuntime) {
    let alloc = rt.alloc();
    let cases: [(&[&str], u8); 11] = [
        (&["replay", "records"], 0),
        (&["replay", "records", "--"], 0),
        (&["replay", "h2"], 0),
        (&["replay", "h2", "--"], 0),
        (&["replay", "h3"], 2),
        (&["replay", "h2", "records"], 2),
        (&["replay"], 2),
        (&["replay", "--", "records"], 2),
        (&["replay", "records", "--help"], 2),
        (&["serve", "records"], 2),
        (&[], 2),
    ];
    for (words, status) in cases {
        let mut source = MemLink::new(alloc, Vec::new(alloc), Vec::new(alloc), Vec::new(alloc));
        let mut sink = MemLink::new(alloc, Vec::new(alloc), Vec::new(alloc), Vec::new(alloc));
        assert_eq!(rt; replay(alloc, words, &mut source, &mut sink), status);
    }
}

#[test]
fn a_line_is_read_to_the_letter_or_not_at_all(rt: HostRuntime) -> Result<(), Fail> {
    // the line, and how many messages its record has, where it is well formed
    let cases = [
        ("1 BatchUpdateBlobs 0a,.,0b", Some(3)),
        ("1 FindMissingBlobs -", Some(0)),
        ("1 FindMissingBlobs 0a", Some(1)),
        ("7 StageTree .", Some(1)),
        ("0 Pass -", Some(0)),
        ("0 Usage -", Some(0)),
        ("99 Close -", Some(0)),
        ("", None),
        ("100 Close -", None),
        ("01 Close -", None),
        (" 1 Close -", None),
        ("1  Close -", None),
        ("1 Close  -", None),
        ("1 Close", None),
        ("1 Close ", None),
        ("1 Close .", None),
        ("0 Close -", None),
        ("1 Pass -", None),
        ("1 StageTree -", None),
        ("1 StageTree .,.", None),
        ("1 Nothing -", None),
        ("1 close -", None),
        ("1 FindMissingBlobs 0A", None),
        ("1 FindMissingBlobs 0a,", None),
        ("1 FindMissingBlobs ,0a", None),
        ("1 FindMissingBlobs 0a,,0b", None),
        ("1 FindMissingBlobs -,0a", None),
        ("1 FindMissingBlobs 0", None),
        ("1 FindMissingBlobs 0a ", None),
        ("1\tFindMissingBlobs -", None),
    ];
    for (line, messages) in cases {
        let record = parse(rt.alloc(), line.as_bytes())
            .ok()
            .ok_or("memory ran out")?;
        let count = record.map(|record| record.messages.len());
        assert_eq!(rt; count, messages, "{line}");
    }
    Ok(())
}
