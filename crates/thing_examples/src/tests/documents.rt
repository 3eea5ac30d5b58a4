//! Each call with ample memory, against documents that were worked out by hand.

use device_docs::{
    Change, ChangeFault, DocFault, Job, JobStatus, read_change, read_execution, write_execution,
    write_update,
};
use list_types::Text;
use std::alloc::{AllocError, Global};
use std::test::Fail;

/// A job document, with SHA-256 of `abc` (FIPS 180-4).
const EXAMPLE: &str =
    "{\"execution\":{\"jobId\":\"j1\",\"versionNumber\":1,\"jobDocument\":{\"afr_ota\":{\"protocols\":[\"MQTT\"],\"streamname\":\"s1\",\"files\":[{\"filepath\":\"/img\",\"filesize\":3,\"fileid\":0,\"certfile\":\"cert\",\"sig-sha256-ecdsa\":\"\",\"sha256\":\"ungWv48Bz+pBQUDeXa4iI7ADYaOWF3qctBD/YfIAFa0=\"}]}}}}";

/// The same as it is written, with the members in the order of their keys.
const WRITTEN: &str =
    "{\"execution\":{\"jobDocument\":{\"afr_ota\":{\"files\":[{\"certfile\":\"cert\",\"fileid\":0,\"filepath\":\"/img\",\"filesize\":3,\"sha256\":\"ungWv48Bz+pBQUDeXa4iI7ADYaOWF3qctBD/YfIAFa0=\",\"sig-sha256-ecdsa\":\"\"}],\"protocols\":[\"MQTT\"],\"streamname\":\"s1\"}},\"jobId\":\"j1\",\"versionNumber\":1}}";

const DIGEST: [u8; 32] = [
    0xba, 0x78, 0x16, 0xbf, 0x8f, 0x01, 0xcf, 0xea, 0x41, 0x41, 0x40, 0xde, 0x5d, 0xae, 0x22, 0x23,
    0xb0, 0x03, 0x61, 0xa3, 0x96, 0x17, 0x7a, 0x9c, 0xb4, 0x10, 0xff, 0x61, 0xf2, 0x00, 0x15, 0xad,
];

fn example_job(alloc: Global) -> Result<Job, AllocError> {
    Ok(Job {
        job: Text::from_str(alloc, "j1")?,
        version: 1,
        stream: Text::from_str(alloc, "s1")?,
        path: Text::from_str(alloc, "/img")?,
        size: 3,
        file: 0,
        digest: DIGEST,
    })
}

/// The example with `new` in place of the first `old`.
fn example_with(alloc: Global, old: &str, new: &str) -> Result<String, AllocError> {
    let mut text = String::new(alloc);
    match EXAMPLE.split_once(old) {
        Some((front, rest)) => {
            text.push_str(front)?;
            text.push_str(new)?;
            text.push_str(rest)?;
        }
        None => text.push_str(EXAMPLE)?,
    }
    Ok(text)
}

#[test]
fn the_example_names_its_job(rt: HostRuntime) -> Result<(), Fail> {
    let alloc = rt.alloc();
    let wanted = example_job(alloc)?;
    let job = read_execution(alloc, EXAMPLE.as_bytes())?.ok_or("no job")?;
    assert!(rt; job == wanted);
    Ok(())
}

#[test]
fn the_example_is_written(rt: HostRuntime) -> Result<(), Fail> {
    let alloc = rt.alloc();
    let job = example_job(alloc)?;
    if !job.is_nameable() {
        return Err(Fail::from("not nameable"));
    }
    let text = write_execution(alloc, Some(&job))?;
    assert_eq!(rt; text.as_str(), WRITTEN);
    let none = write_execution(alloc, None)?;
    assert_eq!(rt; none.as_str(), "{}");
    Ok(())
}

/// What stands in the example, what is put in its place, and the fault.
const CHANGED: &str = r#"
"jobId":"j1", |  | Missing { key: JobId }
"versionNumber":1, |  | Missing { key: VersionNumber }
jobDocument | other | Missing { key: JobDocument }
afr_ota | other | Missing { key: AfrOta }
"protocols":["MQTT"], |  | Missing { key: Protocols }
"streamname":"s1", |  | Missing { key: StreamName }
files | other | Missing { key: Files }
"filepath":"/img", |  | Missing { key: FilePath }
"filesize":3, |  | Missing { key: FileSize }
"fileid":0, |  | Missing { key: FileId }
sha256":"ung | other":"ung | Missing { key: Sha256 }

{"execution":{ | {"execution":null,"other":{ | Missing { key: Execution }
{"execution":{ | {"execution":[],"other":{ | Missing { key: Execution }
{"execution":{ | {"execution":1,"other":{ | Missing { key: Execution }
"j1" | 1 | Missing { key: JobId }
Number":1 | Number":"1" | Missing { key: VersionNumber }
Number":1 | Number":-1 | Missing { key: VersionNumber }
Number":1 | Number":1.0 | Missing { key: VersionNumber }
Number":1 | Number":18446744073709551616 | Missing { key: VersionNumber }
"jobDocument":{ | "jobDocument":[],"other":{ | Missing { key: JobDocument }
"afr_ota":{ | "afr_ota":"","other":{ | Missing { key: AfrOta }
["MQTT"] | "MQTT" | Missing { key: Protocols }
"s1" | null | Missing { key: StreamName }
"files":[ | "files":{},"other":[ | Missing { key: Files }
"files":[ | "files":[7],"other":[ | Missing { key: FilePath }
"/img" | true | Missing { key: FilePath }
size":3 | size":3e0 | Missing { key: FileSize }
"fileid":0 | "fileid":-0 | Missing { key: FileId }
"ungWv48Bz+pBQUDeXa4iI7ADYaOWF3qctBD/YfIAFa0=" | [] | Missing { key: Sha256 }

"files":[ | "files":[1, | Files { count: 2 }
"files":[ | "files":[],"other":[ | Files { count: 0 }

"j1" | "a:b" | Range { key: JobId }
"j1" | "$next" | Range { key: JobId }
["MQTT"] | ["HTTP",4] | Range { key: Protocols }
["MQTT"] | ["mqtt"] | Range { key: Protocols }
"s1" | "" | Range { key: StreamName }
"/img" | "" | Range { key: FilePath }
size":3 | size":0 | Range { key: FileSize }
size":3 | size":-3 | Range { key: FileSize }
size":3 | size":16777217 | Range { key: FileSize }
"fileid":0 | "fileid":-1 | Range { key: FileId }
"fileid":0 | "fileid":4294967296 | Range { key: FileId }

Fa0= | Fa0 | Digest
Fa0= | Fa1= | Digest
IAFa0= | IAFQ== | Digest
ungWv48Bz+pBQUDeXa4iI7ADYaOWF3qctBD/YfIAFa0= |  | Digest

}]}}}} | }]}}}}] | NotJson
"#;

#[test]
fn the_example_with_one_part_changed_has_its_fault(rt: HostRuntime) -> Result<(), Fail> {
    let alloc = rt.alloc();
    for line in CHANGED.lines() {
        let Some((old, rest)) = line.split_once(" | ") else {
            continue;
        };
        let (new, fault) = rest.split_once(" | ").ok_or("no fault")?;
        let text = example_with(alloc, old, new)?;
        let read = read_execution(alloc, text.as_bytes());
        let found = format!(in alloc; "{:?}", read.err())?;
        let wanted = format!(in alloc; "Some({fault})")?;
        assert_eq!(rt; found.as_str(), wanted.as_str(), "{new} for {old}");
    }
    Ok(())
}

#[test]
fn what_is_allowed_besides_is_read(rt: HostRuntime) -> Result<(), Fail> {
    let alloc = rt.alloc();
    for (old, new) in [
        ("[\"MQTT\"]", "[7,\"HTTP\",\"MQTT\"]"),
        ("Number\":1", "Number\":18446744073709551615"),
        ("size\":3", "size\":16777216"),
        ("\"fileid\":0", "\"fileid\":4294967295"),
        ("{\"execution\"", "{\"timestamp\":1.5,\"execution\""),
        // Of two members of one key the last counts.
        ("\"jobId\":\"j1\"", "\"jobId\":7,\"jobId\":\"j1\""),
    ] {
        let text = example_with(alloc, old, new)?;
        let read = read_execution(alloc, text.as_bytes())?;
        assert!(rt; read.is_some(), "{new} for {old}");
    }
    Ok(())
}

/// A text, and the answer. All keys are looked for before the files are counted, the files are counted before the file is
/// looked into, and no value is judged before.
const WHOLE: &str = r#"
 | Err(NotJson)
[ | Err(NotJson)
[] | Err(NotJson)
{} x | Err(NotJson)
{} | Ok(None)
{"execution":{}} | Ok(None)
{"execution":1,"execution":{}} | Ok(None)
{"execution":{"jobId":""}} | Err(Missing { key: VersionNumber })
{"execution":{"jobId":"","versionNumber":1,"jobDocument":{"afr_ota":{"protocols":[],"streamname":"","files":[]}}}} | Err(Files { count: 0 })
{"execution":{"jobId":"","versionNumber":1,"jobDocument":{"afr_ota":{"protocols":[],"streamname":"","files":[{}]}}}} | Err(Missing { key: FilePath })
"#;

#[test]
fn the_first_fault_is_told(rt: HostRuntime) -> Result<(), Fail> {
    let alloc = rt.alloc();
    for line in WHOLE.lines() {
        let Some((text, wanted)) = line.split_once(" | ") else {
            continue;
        };
        let read = read_execution(alloc, text.as_bytes());
        let found = format!(in alloc; "{read:?}")?;
        assert_eq!(rt; found.as_str(), wanted, "at {text}");
    }
    let read = read_execution(alloc, b"{\"\xff\":0}");
    assert_eq!(rt; read.err(), Some(DocFault::NotJson));
    Ok(())
}

#[test]
fn deep_nesting_is_no_json(rt: HostRuntime) -> Result<(), Fail> {
    let alloc = rt.alloc();
    for (depth, is_read) in [(126, true), (127, false), (100_000, false)] {
        let mut text = String::from_str(alloc, "{\"a\":")?;
        for _ in 0..depth {
            text.push('[')?;
        }
        for _ in 0..depth {
            text.push(']')?;
        }
        text.push('}')?;
        assert_eq!(rt;
            read_execution(alloc, text.as_bytes()).is_ok(),
            is_read,
            "at {depth}"
        );
    }
    Ok(())
}

#[test]
fn updates_have_their_texts(rt: HostRuntime) {
    assert_eq!(rt;
        write_update(JobStatus::InProgress),
        "{\"status\":\"IN_PROGRESS\"}"
    );
    assert_eq!(rt;
        write_update(JobStatus::Succeeded),
        "{\"status\":\"SUCCEEDED\"}"
    );
    assert_eq!(rt; write_update(JobStatus::Failed), "{\"status\":\"FAILED\"}");
    assert_eq!(rt;
        write_update(JobStatus::Rejected),
        "{\"status\":\"REJECTED\"}"
    );
}

#[test]
fn a_change_is_read_in_the_order_of_its_keys(rt: HostRuntime) -> Result<(), Fail> {
    let alloc = rt.alloc();
    let text =
        br#"{"version":2,"state":{"desired":{"b":"x","a":null,"B":true,"i":-9223372036854775808}}}"#;
    let read = read_change(alloc, text);
    let found = format!(in alloc; "{read:?}")?;
    let wanted =
        r#"Ok(Change { version: 2, sets: Seq { items: [(Text { text: "B" }, Some(Flag(true))), (Text { text: "a" }, None), (Text { text: "b" }, Some(Word(Text { text: "x" }))), (Text { text: "i" }, Some(Int(-9223372036854775808)))] } })"#;
    assert_eq!(rt; found.as_str(), wanted);
    Ok(())
}

/// A text, and its fault. The key of a value is that of the first member by the bytes of the keys.
const CHANGES: &str = r#"
[ | NotJson
{} | Missing { key: Version }
{"version":-1,"state":{}} | Missing { key: Version }
{"version":1} | Missing { key: State }
{"version":1,"state":[]} | Missing { key: State }
{"version":1,"state":{}} | Missing { key: Desired }
{"version":1,"state":{"desired":null}} | Missing { key: Desired }
{"version":1,"state":{"desired":{}}} | Count { members: 0 }
{"version":1,"state":{"desired":{"a":[]}}} | Value { key: Text { text: "a" } }
{"version":1,"state":{"desired":{"b":[],"a":{},"B":0}}} | Value { key: Text { text: "a" } }
{"version":1,"state":{"desired":{"k":1.5}}} | Value { key: Text { text: "k" } }
{"version":1,"state":{"desired":{"":9223372036854775808}}} | Value { key: Text { text: "" } }
"#;

#[test]
fn the_first_fault_of_a_change_is_told(rt: HostRuntime) -> Result<(), Fail> {
    let alloc = rt.alloc();
    for line in CHANGES.lines() {
        let Some((text, fault)) = line.split_once(" | ") else {
            continue;
        };
        let read = read_change(alloc, text.as_bytes());
        let found = format!(in alloc; "{:?}", read.err())?;
        let wanted = format!(in alloc; "Some({fault})")?;
        assert_eq!(rt; found.as_str(), wanted.as_str(), "at {text}");
    }
    Ok(())
}

#[test]
fn a_change_has_1_to_64_members(rt: HostRuntime) -> Result<(), Fail> {
    let alloc = rt.alloc();
    for count in [0, 1, 64, 65] {
        let mut text = String::from_str(alloc, "{\"version\":1,\"state\":{\"desired\":{")?;
        for member in 0..count {
            if member > 0 {
                text.push(',')?;
            }
            text.push_str(format!(in alloc; "\"k{member}\":0")?.as_str())?;
        }
        text.push_str("}}}")?;
        let read = read_change(alloc, text.as_bytes());
        if count == 0 || count == 65 {
            assert_eq!(rt; read, Err(ChangeFault::Count { members: count }));
        } else {
            assert_eq!(rt; read.map(|change| change.sets.len()), Ok(count));
        }
    }
    Ok(())
}
