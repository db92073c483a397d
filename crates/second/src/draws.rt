// Digests of parts joined together, and drawing from a stream.
use crate::Signer;
use crate::trouble::Trouble;
use suite::Suite;

impl<S: Suite> Signer<'_, S> {
    // d(label, part ‖ part ‖ ..), of one row of bytes
    pub(crate) fn hash(&self, label: u8, parts: &[&[u8]]) -> Result<[u8; 32], Trouble> {
        let whole = parts.concat(self.heap)?;
        let mut out = [0u8; 32];
        self.suite.digest(label, whole.as_slice(), &[], &mut out)?;
        Ok(out)
    }

    // The first `count` bytes of a stream.
    fn stream(&self, label: u8, seed: &[u8; 32], count: usize) -> Result<Vec<u8>, Trouble> {
        let mut bytes = vec![in self.heap; 0u8; count]?;
        self.suite.stream(label, seed, bytes.as_mut_slice())?;
        Ok(bytes)
    }

    // The lowest bits of the first bytes of a stream, one for each round.
    pub(crate) fn bits(&self, label: u8, seed: &[u8; 32]) -> Result<Vec<bool>, Trouble> {
        let bytes = self.stream(label, seed, self.p.r)?;
        let bits = bytes.iter().map(|b| b % 2 == 1).collect(self.heap)?;
        Ok(bits)
    }

    // The first `count` elements among the first count + ⌊count/8⌋ + 64 bytes of a stream.
    pub(crate) fn draw(
        &self,
        label: u8,
        seed: &[u8; 32],
        count: usize,
    ) -> Result<Vec<u8>, Trouble> {
        let most = count.saturating_add(count / 8).saturating_add(64);
        let bytes = self.stream(label, seed, most)?;
        let drawn: Vec<u8> = bytes
            .iter()
            .map(|b| b % 32)
            .filter(|&x| x != 31)
            .take(count)
            .collect(self.heap)?;
        if drawn.len() < count {
            return Err(Trouble::Few { label });
        }
        Ok(drawn)
    }
}
