// What a client is answered before its log is judged: a refusal, or that it may be judged.
ghost use Rattle.std.specs.Prelude.{◌≡◌};
ghost use Rattle.client_records.specs.inner.Charges.{allowed_by};

use answer::Error;
use client_records::{CLIENTS, is_exhausted};
use usage::Usage;

pub fn allowance(usages: [Usage; CLIENTS], client: u32, share: u32, limit: u32) -> Result<(), Error>
    ensures { result ≡ allowed_by client share limit usages }
{
    if CLIENTS <= client as usize {
        return Err(Error::UnknownClient);
    }
    let own = usages[client as usize];
    if is_exhausted(usages, own, share, limit) {
        return Err(Error::QuotaReached);
    }
    Ok(())
}
