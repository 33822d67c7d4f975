//! SipHash of words: one round for each and three at the end, with keys of 0. Words are hashed whole, and not as bytes.

ghost use Rattle.std.specs.Prelude.{◌≡◌};
ghost use Rattle.backing_store.specs.SipHash.{round, sip_hash, with_word};

// The four words of the state.
#[derive(Clone, Copy)]
struct Sip {
    v0: u64,
    v1: u64,
    v2: u64,
    v3: u64,
}

impl Sip {
    #[inline(always)]
    fn round(&mut self)
        ensures { self.new ≡ round self.old }
    {
        self.v0 = self.v0.wrapping_add(self.v1);
        self.v2 = self.v2.wrapping_add(self.v3);
        self.v1 = self.v1.rotate_left(13) ^ self.v0;
        self.v3 = self.v3.rotate_left(16) ^ self.v2;
        self.v0 = self.v0.rotate_left(32);
        self.v2 = self.v2.wrapping_add(self.v1);
        self.v0 = self.v0.wrapping_add(self.v3);
        self.v1 = self.v1.rotate_left(17) ^ self.v2;
        self.v3 = self.v3.rotate_left(21) ^ self.v0;
        self.v2 = self.v2.rotate_left(32);
    }

    #[inline(always)]
    fn write(&mut self, word: u64)
        ensures { self.new ≡ with_word self.old word }
    {
        self.v3 ^= word;
        self.round();
        self.v0 ^= word;
    }
}

/// The hash of these words. Their number isn't hashed, since keys of one store have the same.
pub fn sip_hash(words: &[u64]) -> u64
    ensures { result ≡ sip_hash words.now }
{
    let mut sip = Sip {
        v0: 0x736F_6D65_7073_6575,
        v1: 0x646F_7261_6E64_6F6D,
        v2: 0x6C79_6765_6E65_7261,
        v3: 0x7465_6462_7974_6573,
    };
    'words: for word in words {
        sip.write(*word);
    }
    sip.v2 ^= 0xFF;
    sip.round();
    sip.round();
    sip.round();
    sip.v0 ^ sip.v1 ^ sip.v2 ^ sip.v3
}
