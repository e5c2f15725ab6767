//! One exchange with a remote.
ghost use Rattle.std.specs.Prelude.{◌≡◌, ◌≤◌, IfOk, OnOk, OnErr, ◌++◌};
ghost use Rattle.std.specs.Fmt.{decimal};
ghost use Rattle.remote_fetch.specs.Exchanged.{IsAsked, Reaches, request_of};

use crate::replies::{Reply, read_answer};
use fetch_plan::Plan;
use outside_remote::{Remote, RemoteFault};
use std::alloc::{AllocError, Global};

fn push_decimal(bytes: &mut Vec<u8>, number: u64) -> Result<(), AllocError>
    ensures { OnOk result (bytes.new.items ≡ bytes.old.items ++ decimal number) }
{
    let mut digits = itoa::Buffer::new();
    bytes.extend_from_slice(digits.format(number).as_bytes())?;
    Ok(())
}

/// The request for what stands at a plan's path with a suffix after it (RFC 9112, section 3).
fn request_of(alloc: Global, plan: &Plan, suffix: &[u8]) -> Result<Vec<u8>, AllocError>
    ensures { IfOk result (λ request. request.items ≡ request_of plan.now suffix.now) }
{
    let mut request = Vec::new(alloc);
    request.extend_from_slice(b"GET ")?;
    request.extend_from_slice(plan.prefix.as_str().as_bytes())?;
    request.extend_from_slice(b"/")?;
    request.extend_from_slice(plan.path.as_str().as_bytes())?;
    request.extend_from_slice(suffix)?;
    request.extend_from_slice(b" HTTP/1.1\r\nHost: ")?;
    request.extend_from_slice(plan.host.as_str().as_bytes())?;
    request.extend_from_slice(b":")?;
    push_decimal(&mut request, u64::from(plan.port))?;
    request.extend_from_slice(b"\r\nAccept: */*\r\nConnection: close\r\n\r\n")?;
    Ok(request)
}

/// Asks once for what stands at a plan's path with a suffix after it. The body may have so many bytes.
pub(crate) fn ask<R: Remote>(
    alloc: Global,
    remote: &mut R,
    plan: &Plan,
    suffix: &[u8],
    limit: u64,
) -> Result<Reply, AllocError>
    requires limit { limit ≤ 16_777_216 }
    ensures reply { IfOk result (λ reply. IsAsked plan.now suffix.now limit reply (R.sees remote.old) (R.sees remote.new)) }
    ensures no_memory { OnErr result (Reaches 1 (R.sees remote.old) (R.sees remote.new)) }
{
    let request = request_of(alloc, plan, suffix)?;
    let most = 2 * limit + 65_536;
    match remote.exchange(
        alloc,
        plan.host.as_str(),
        plan.port,
        request.as_slice(),
        most,
    ) {
        Ok(bytes) => read_answer(alloc, bytes.as_slice(), limit),
        Err(RemoteFault::Failed) => Ok(Reply::Fault),
        Err(RemoteFault::NoMemory) => Err(AllocError),
    }
}
