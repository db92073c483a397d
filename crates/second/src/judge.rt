// Verifying.
use crate::Signer;
use crate::key::seed_at;
use crate::numbers::part;
use crate::opening::Claim;
use crate::packed::{unpack, width};
use crate::refused::Refused;
use crate::trouble::Trouble;
use suite::Suite;

impl<S: Suite> Signer<'_, S> {
    fn accepts(&self, key: &[u8], message: &[u8], sig: &[u8]) -> Result<bool, Trouble> {
        let map = self.map_of(&seed_at(key, 0))?;
        let packed = part(key, 32, width(self.p.m));
        let v = unpack(self.heap, packed, self.p.m)?;
        let claim = Claim {
            map: map.as_slice(),
            v: v.as_slice(),
            sig,
        };
        self.list_matches(claim, message)
    }

    pub fn judge(&self, key: &[u8], message: &[u8], sig: &[u8]) -> Result<(), Refused> {
        self.p.judge_shape(key, message, sig)?;
        if self.accepts(key, message, sig)? {
            Ok(())
        } else {
            Err(Refused::Wrong)
        }
    }
}
