// Secret keys K ‖ S, and the public key S ‖ v of one.
use crate::Signer;
use crate::packed::pack;
use crate::trouble::Trouble;
use suite::Suite;

// 32 bytes from `from` on, and zeros where there are fewer.
pub fn seed_at(bytes: &[u8], from: usize) -> [u8; 32] {
    bytes
        .get(from..)
        .and_then(|rest| rest.first_chunk())
        .copied()
        .unwrap_or([0; 32])
}

// K and S.
pub fn seeds(secret: &[u8]) -> Result<([u8; 32], [u8; 32]), Trouble> {
    if secret.len() != 64 {
        return Err(Trouble::SecretKey);
    }
    Ok((seed_at(secret, 0), seed_at(secret, 32)))
}

impl<S: Suite> Signer<'_, S> {
    // The coefficients of the map that a public seed stands for.
    pub(crate) fn map_of(&self, seed: &[u8; 32]) -> Result<Vec<u8>, Trouble> {
        self.draw(8, seed, self.p.coefficients())
    }

    pub fn public_key(&self, secret: &[u8]) -> Result<Vec<u8>, Trouble> {
        let (k, s) = seeds(secret)?;
        let x = self.draw(9, &k, self.p.n)?;
        let map = self.map_of(&s)?;
        let v = self.value(map.as_slice(), x.as_slice())?;
        let tail = pack(self.heap, v.as_slice())?;
        let mut key = Vec::from_slice(self.heap, &s)?;
        key.extend_from_slice(tail.as_slice())?;
        Ok(key)
    }
}
