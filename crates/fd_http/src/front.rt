ghost use Rattle.std.specs.Prelude.{ℕ, ◌≡◌, ◌≤◌, ◌<◌, ◌++◌, ◌∷◌, ◌+◌, ◌^◌, [], List, length, take, IfSome, IfNone, IsTrue, IsFalse};
ghost use Rattle.fd_http.specs.Front.{is_blank_ended, HasNoFront};

const CR: u8 = b'\r';

const LF: u8 = b'\n';

/// How far the search for a front has come, and how the bytes before end.
#[derive(Clone, Copy)]
pub(crate) struct FrontSearch {
    /// How many bytes were seen.
    pub place: usize,
    /// One of them is neither CR nor LF.
    pub has_text: bool,
    /// They end with LF.
    pub after_feed: bool,
    /// They end with LF or with LF CR.
    pub after_line: bool,
}

impl FrontSearch {
    ghost use Rattle.fd_http.specs.Search.{EndsAs, HasSearched};

    pub fn new() -> FrontSearch
        ensures place { result.place ≡ 0 }
        ensures searched { (bytes : List ℕ) → HasSearched bytes result }
    {
        FrontSearch {
            place: 0,
            has_text: false,
            after_feed: false,
            after_line: false,
        }
    }

    /// Sees one more byte, and says whether a front ends with it.
    fn see(&mut self, byte: u8) -> bool
        requires { self.old.place < 2 ^ 63 }
        ensures place { self.new.place ≡ self.old.place + 1 }
        ensures ends { (seen : List ℕ) → EndsAs seen self.old
            → EndsAs (seen ++ byte ∷ []) self.new }
        ensures found { (seen : List ℕ) → EndsAs seen self.old
            → result ≡ is_blank_ended (seen ++ byte ∷ []) }
    {
        let is_feed = byte == LF;
        let ends_line = is_feed && self.after_line;
        self.place += 1;
        self.has_text = self.has_text || (byte != CR && !is_feed);
        self.after_line = is_feed || (byte == CR && self.after_feed);
        self.after_feed = is_feed;
        self.has_text && ends_line
    }

    /// Goes on to the end of the front, and answers its length, or to the end of the bytes. Those
    /// that were seen before are not looked at again.
    pub fn front_len(&mut self, bytes: &[u8]) -> Option<usize>
        requires { HasSearched bytes.now self.old }
        ensures within { IfSome result (λ n. n ≤ length bytes.now) }
        ensures ends { IfSome result (λ n. IsTrue (is_blank_ended (take n bytes.now))) }
        ensures shortest { IfSome result (λ n. (k : ℕ) → k < n
            → IsFalse (is_blank_ended (take k bytes.now))) }
        ensures none { IfNone result (HasNoFront bytes.now) }
        ensures searched { IfNone result (HasSearched bytes.now self.new) }
    {
        for byte in &bytes[self.place..] {
            if self.see(*byte) {
                return Some(self.place);
            }
        }
        None
    }
}
