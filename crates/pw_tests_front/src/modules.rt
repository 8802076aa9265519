//! Texts that several tests read.

ghost use Rattle.std.specs.Prelude.{IfSome};
ghost use Rattle.pw_token.specs.Tokenization.{IsLexed};

use pw_token::{Token, lex};
use std::alloc::{AllocError, Global};

/// Parts of a text, with how often each stands.
pub type Parts = &'static [(&'static [u8], usize)];

/// A text of parts in order, each written as often as its count says.
pub fn text_of(alloc: Global, parts: &[(&[u8], usize)]) -> Result<Vec<u8>, AllocError> {
    let mut text = Vec::new(alloc);
    for (part, count) in parts {
        for _ in 0..*count {
            text.extend_from_slice(part)?;
        }
    }
    Ok(text)
}

/// The tokens of a text, where it has some.
pub fn tokens_of(alloc: Global, text: &[u8]) -> Option<Vec<Token>>
    ensures { IfSome result (λ tokens. IsLexed text.now tokens.items) }
{
    lex(alloc, text).ok()
}

/// The modules of a desk calculator, each with its count of tokens, as clang counts them.
pub static CALCULATOR: [(&[u8], usize); 3] = [
    (
        b"int stack[64];
int *top = stack;
int depth;
void push(int v) { *top++ = v; depth++; }
int pop(void) { depth--; return *--top; }
",
        47,
    ),
    (
        b"static int add(int a, int b) { return a + b; }
static int sub(int a, int b) { return a - b; }
static int mul(int a, int b) { return a * b; }
struct op { char sign; int (*run)(int, int); };
struct op table[] = { { '+', add }, { '-', sub }, { '*', mul } };
int ops = sizeof table / sizeof table[0];
",
        108,
    ),
    (
        b"extern int depth; extern int ops;
struct op { char sign; int (*run)(int, int); };
extern struct op table[];
void push(int v); int pop(void); int getchar(void); int putchar(int);
static void print(int v) {
  if (v < 0) { putchar('-'); v = -v; }
  if (v > 9) print(v / 10);
  putchar('0' + v % 10);
}
int main(void) {
  int c = getchar();
  while (c != -1) {
    if (c >= '0' && c <= '9') {
      int n = 0;
      while (c >= '0' && c <= '9') { n = n * 10 + (c - '0'); c = getchar(); }
      push(n);
    } else {
      int i;
      for (i = 0; i < ops; i++)
        if (table[i].sign == c && depth >= 2) {
          int b = pop(); int a = pop(); push((*table[i].run)(a, b));
        }
      if (c == '\\n' && depth > 0) { print(pop()); putchar('\\n'); }
      c = getchar();
    }
  }
  return 0;
}
",
        284,
    ),
];
