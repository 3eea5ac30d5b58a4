//! The answer of a jobs service: the job that is next.

ghost use Rattle.std.specs.Prelude.{◌≡◌, ◌≤◌, Ok, Some, IfOk, OnOk, IfSome, IsTrue, string_bytes, length};
ghost use Rattle.std.specs.Option.{option_copied};
ghost use Rattle.base64.specs.Engines.{standard};
ghost use Rattle.base64.specs.GeneralPurpose.{encode_of};
ghost use Rattle.serde_json.specs.View.{view};
ghost use Rattle.device_docs.specs.Executions.{document_text, document_value, execution_value, ota_value, file_value};
ghost use Rattle.device_docs.specs.Jobs.{is_nameable, said, digest_of};

use crate::NoMemory;
use crate::jobs::Job;
use base64::engine::general_purpose::STANDARD;
use list_types::Text;
use serde_json::{Value, json};
use std::alloc::Global;

/// The text of the answer that names a job, or `{}` without one: JSON without blanks, at most 131,072 bytes, with the
/// members of each object in the order of their keys. [`read_execution`](crate::read_execution) reads it as that job. An
/// error is want of memory.
pub fn write_execution(alloc: Global, job: Option<&Job>) -> Result<Text, NoMemory>
    requires nameable { IfSome job (λ job. IsTrue (is_nameable job.now)) }
    ensures text { IfOk result (λ text. text ≡ document_text (option_copied job.entry)) }
    ensures read_back { IfOk result (λ text. said text ≡ Ok (option_copied job.entry)) }
    ensures short { IfOk result (λ text. length text ≤ 131072) }
{
    let text = document(alloc, job)?.to_string(alloc)?;
    Ok(Text::from_string(text))
}

fn document(alloc: Global, job: Option<&Job>) -> Result<Value, NoMemory>
    ensures value { IfOk result (λ v. view v ≡ document_value (option_copied job.entry)) }
    ensures digest { OnOk result (IfSome job.entry (λ job. digest_of (encode_of standard job.now.digest) ≡ Some job.now.digest)) }
{
    match job {
        Some(job) => with_execution(alloc, job),
        None => json!(in alloc; {}),
    }
}

fn with_execution(alloc: Global, job: &Job) -> Result<Value, NoMemory>
    ensures value { IfOk result (λ v. view v ≡ document_value (Some job.now)) }
    ensures digest { OnOk result (digest_of (encode_of standard job.now.digest) ≡ Some job.now.digest) }
{
    json!(in alloc; {"execution": execution(alloc, job)?})
}

fn execution(alloc: Global, job: &Job) -> Result<Value, NoMemory>
    ensures value { IfOk result (λ v. view v ≡ execution_value job.now) }
    ensures digest { OnOk result (digest_of (encode_of standard job.now.digest) ≡ Some job.now.digest) }
{
    json!(in alloc; {
        "jobId": job.job.as_str(),
        "versionNumber": job.version,
        "jobDocument": {"afr_ota": ota(alloc, job)?}
    })
}

fn ota(alloc: Global, job: &Job) -> Result<Value, NoMemory>
    ensures value { IfOk result (λ v. view v ≡ ota_value job.now) }
    ensures digest { OnOk result (digest_of (encode_of standard job.now.digest) ≡ Some job.now.digest) }
{
    json!(in alloc; {
        "protocols": ["MQTT"],
        "streamname": job.stream.as_str(),
        "files": [file(alloc, job)?]
    })
}

fn file(alloc: Global, job: &Job) -> Result<Value, NoMemory>
    ensures value { IfOk result (λ v. view v ≡ file_value job.now) }
    ensures digest { OnOk result (digest_of (encode_of standard job.now.digest) ≡ Some job.now.digest) }
{
    let digest = digest_text(alloc, &job.digest)?;
    json!(in alloc; {
        "filepath": job.path.as_str(),
        "filesize": job.size,
        "fileid": job.file,
        "certfile": "cert",
        "sig-sha256-ecdsa": "",
        "sha256": digest.as_str()
    })
}

/// The Base64 of a digest, which is read back.
fn digest_text(alloc: Global, digest: &[u8; 32]) -> Result<String, NoMemory>
    ensures text { IfOk result (λ t. string_bytes t ≡ encode_of standard digest.now) }
    ensures back { digest_of (encode_of standard digest.now) ≡ Some digest.now }
{
    STANDARD.encode(alloc, digest.as_slice())
}
