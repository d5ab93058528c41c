//! Where pages come from.

ghost use Rattle.std.specs.Prelude.{◌≡◌, ◌<◌, ◌≤◌, ◌*◌, length};
ghost use Rattle.cal_base.specs.Pages.{Paged, page_size, page_words, version_of};

use cal_base::Image;

/// A memory of at most 262,144 words in pages of 64, that only lends them. Each page has a version, until that passes 64 bits.
pub trait PageSource {
    ghost pages: { Self → Paged };

    /// The 64 words of page p; past the last word they are 0.
    fn page(&self, p: u32) -> &[i64]
        requires { page_size * p < length (pages self.now).memory }
        ensures { result.now ≡ page_words (pages self.now).memory p };

    /// The version of page p, unless it passed 64 bits.
    fn version(&self, p: u32) -> Option<u64>
        requires { page_size * p < length (pages self.now).memory }
        ensures version { result ≡ version_of (pages self.now) p }
        ensures limit { length (pages self.now).memory ≤ 262144 };
}

impl PageSource for Image {
    ghost pages = { λ image. image };

    fn page(&self, p: u32) -> &[i64] {
        Image::page(self, p)
    }

    fn version(&self, p: u32) -> Option<u64> {
        let _words = self.len();
        Image::version(self, p)
    }
}
