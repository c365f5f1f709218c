//! Lines, indentation and brackets. A layout takes one lexeme after another and keeps the tokens so
//! far, where it stands, the open levels and brackets, and what it knows of the line.
ghost use Rattle.std.specs.Prelude.{◌≡◌, ◌==◌, ◌≤◌, ◌<◌, ◌+◌, ◌^◌, ◌++◌, [], ◌∷◌, length, map};
ghost use Rattle.std.specs.Prelude.{slice_index, slice_get, count_by, IfOk, OnOk, Some, None, ◌-◌};
ghost use Rattle.std.specs.List.{list_any};
ghost use Rattle.star_lex.specs.Answers.{Answers};
ghost use Rattle.star_lex.specs.Layouts.{after_indentation, with_levels, tokens_at_end, IsPlaced};
ghost use Rattle.star_lex.specs.Layouts.{with_whitespace_in, here, after_width, is_newline};
ghost use Rattle.star_lex.specs.Layouts.{with_continuation_in, lacks_newline, layout_after};
ghost use Rattle.star_lex.specs.Layouts.{with_line_end, with_line_end_in, after_margin};
ghost use Rattle.star_lex.specs.Layouts.{behind_bytes, nested, with_last_newline, next_line};
ghost use Rattle.star_lex.specs.Layouts.{levels_at_width, over, with_shown, after_shown, start};
ghost use Rattle.star_lex.specs.Layouts.{with_token};
ghost use Rattle.star_lex.specs.declared.lexemes.Lexeme.TheVariants.{Whitespace, LineContinuation};
ghost use Rattle.star_lex.specs.declared.lexemes.Lexeme.TheVariants.{LineEnd, Comment, Shown};
ghost use Rattle.star_lex.specs.declared.token.TokenKind.TheVariants.{Indent, Newline, Outdent};

use crate::bytes::byte_at;
use crate::levels::Levels;
use crate::lexemes::Lexeme;
use crate::token::{NoLexeme, Token, TokenKind};
use bz_text::{May, Mem, Miss, OutOfMemory, Seq};
use std::alloc::Global;

/// How far a line is: nothing of it is read but blanks, or a backslash has joined it to the one
/// before, or it has a token.
#[derive(Clone, Copy, Debug, PartialEq, Eq)]
pub(crate) enum Phase {
    Fresh,
    Continued,
    Begun,
}

/// The tokens so far and what the next lexeme's meaning hangs on. `width` and `tabbed` tell of the
/// blanks at the line's beginning.
#[derive(Debug, Drop)]
pub(crate) struct Layout {
    pub(crate) tokens: Seq<Token>,
    pub(crate) levels: Levels,
    pub(crate) depth: u64,
    pub(crate) at: u64,
    pub(crate) line: u64,
    pub(crate) width: u64,
    pub(crate) tabbed: bool,
    pub(crate) phase: Phase,
}

fn line_feeds(front: &[u8]) -> u64
    ensures exact { result ≡ count_by (λ b. b == 10) front.now }
    ensures few { result ≤ length front.now }
{
    let mut count = 0;
    'bytes: for byte in front {
        if *byte == b'\n' {
            count += 1;
        }
    }
    count
}

fn has_tab(front: &[u8]) -> bool
    ensures { result ≡ list_any (λ b. b == 9) front.now }
{
    front.iter().any(|b| *b == b'\t')
}

fn nested(byte: u8, depth: u64) -> u64
    requires { depth + 1 < 2 ^ 64 }
    ensures { result ≡ nested byte depth }
{
    if byte == b'(' || byte == b'[' || byte == b'{' {
        depth + 1
    } else if byte == b')' || byte == b']' || byte == b'}' {
        depth.saturating_sub(1)
    } else {
        depth
    }
}

fn is_newline(kind: &TokenKind) -> bool
    ensures { result ≡ is_newline kind.now }
{
    match kind {
        TokenKind::Newline => true,
        _ => false,
    }
}

impl Layout {
    pub(crate) fn new(alloc: Global) -> Layout
        ensures { result ≡ start }
    {
        Layout {
            tokens: Seq::new(alloc),
            levels: Levels::new(alloc),
            depth: 0,
            at: 0,
            line: 1,
            width: 0,
            tabbed: false,
            phase: Phase::Fresh,
        }
    }

    fn here(&self, kind: TokenKind) -> Token
        ensures { result ≡ here kind self.now }
    {
        Token {
            kind,
            begin: self.at,
            end: self.at,
            line: self.line,
        }
    }

    fn over(&self, kind: TokenKind, front: &[u8]) -> Token
        requires { self.now.at + length front.now < 2 ^ 64 }
        ensures { result ≡ over kind front.now self.now }
    {
        Token {
            kind,
            begin: self.at,
            end: self.at + front.len() as u64,
            line: self.line,
        }
    }

    fn push(&mut self, token: Token) -> Mem<()>
        ensures { OnOk result (self.new ≡ with_token self.old token) }
    {
        match self.tokens.push(token) {
            Ok(()) => Ok(()),
            Err(_) => Err(OutOfMemory),
        }
    }

    /// Closes the levels above the line's width.
    fn outdent(&mut self) -> May<(), NoLexeme>
        ensures exact { Answers (λ _. with_levels self.old (levels_at_width (here Outdent self.old)
            self.old.width self.old.levels self.old.tokens) ≡ Some self.new)
            (with_levels self.old
            (levels_at_width (here Outdent self.old) self.old.width self.old.levels
            self.old.tokens) ≡ None) result }
        ensures placed { OnOk result (IsPlaced self.old self.new) }
    {
        'levels: while self.width < self.levels.top() {
            let token = self.here(TokenKind::Outdent);
            self.push(token)?;
            self.levels.close();
        }
        if self.width == self.levels.top() {
            Ok(())
        } else {
            Err(Miss::Because(NoLexeme))
        }
    }

    fn indent(&mut self) -> Mem<()>
        ensures { OnOk result (self.new ≡ record self.old {
          levels = self.old.width ∷ self.old.levels;
          tokens = self.old.tokens ++ here Indent self.old ∷ [];
        }) }
    {
        let token = self.here(TokenKind::Indent);
        self.push(token)?;
        self.levels.open(self.width)
    }

    fn read_indentation(&mut self) -> May<(), NoLexeme>
        ensures exact { Answers (λ _. after_width self.old ≡ Some self.new) (after_width self.old ≡ None) result }
        ensures placed { OnOk result (IsPlaced self.old self.new) }
    {
        if self.levels.top() < self.width {
            return match self.indent() {
                Ok(()) => Ok(()),
                Err(_) => Err(Miss::OutOfMemory),
            };
        }
        self.outdent()
    }

    fn read_margin(&mut self) -> May<(), NoLexeme>
        ensures exact { Answers (λ _. after_margin self.old ≡ Some self.new)
            (after_margin self.old ≡ None) result }
        ensures placed { OnOk result (IsPlaced self.old self.new) }
    {
        if self.tabbed {
            return Err(Miss::Because(NoLexeme));
        }
        self.read_indentation()
    }

    /// Reads the indentation before a line's first token.
    #[tactic(auto, unfolding(crate::specs::Layouts::after_indentation))]
    fn begin(&mut self) -> May<(), NoLexeme>
        ensures exact { Answers (λ _. after_indentation self.old ≡ Some self.new)
            (after_indentation self.old ≡ None) result }
        ensures placed { OnOk result (IsPlaced self.old self.new) }
    {
        match self.phase {
            Phase::Begun => Ok(()),
            Phase::Fresh => self.read_margin(),
            Phase::Continued => self.read_margin(),
        }
    }

    fn move_over(&mut self, front: &[u8])
        requires room { self.old.at + length front.now < 2 ^ 63 }
        requires lined { self.old.line ≤ self.old.at + 1 }
        ensures { self.new ≡ behind_bytes front.now self.old }
    {
        self.at += front.len() as u64;
        self.line += line_feeds(front);
    }

    fn show(&mut self, kind: TokenKind, front: &[u8]) -> Mem<()>
        requires room { self.old.at + length front.now < 2 ^ 63 }
        requires nested { self.old.depth ≤ self.old.at }
        ensures exact { OnOk result (self.new ≡ with_shown kind front.now self.old) }
        ensures placed { OnOk result ((self.new.at ≡ self.old.at) × (self.new.line ≡ self.old.line)) }
    {
        let token = self.over(kind, front);
        self.push(token)?;
        self.phase = Phase::Begun;
        self.depth = nested(byte_at(front, 0), self.depth);
        Ok(())
    }

    fn take_whitespace(&mut self, front: &[u8])
        ensures exact { self.new ≡ with_whitespace_in self.old.phase front.now self.old }
        ensures placed { IsPlaced self.old self.new }
    {
        match self.phase {
            Phase::Fresh => {
                self.width = front.len() as u64;
                self.tabbed = has_tab(front);
            }
            Phase::Continued => {}
            Phase::Begun => {}
        }
    }

    fn take_line_continuation(&mut self)
        ensures exact { self.new ≡ with_continuation_in self.old.phase self.old }
        ensures placed { IsPlaced self.old self.new }
    {
        match self.phase {
            Phase::Fresh => self.phase = Phase::Continued,
            Phase::Continued => {}
            Phase::Begun => {}
        }
    }

    fn start_line(&mut self)
        ensures exact { self.new ≡ next_line self.old }
        ensures placed { IsPlaced self.old self.new }
    {
        self.phase = Phase::Fresh;
        self.width = 0;
        self.tabbed = false;
    }

    fn end_line(&mut self, front: &[u8]) -> Mem<()>
        requires room { self.old.at + length front.now < 2 ^ 63 }
        ensures exact { OnOk result (self.new ≡ with_line_end_in self.old.phase front.now self.old) }
        ensures placed { OnOk result (IsPlaced self.old self.new) }
    {
        match self.phase {
            Phase::Begun => {
                let token = self.over(TokenKind::Newline, front);
                self.push(token)?;
                self.start_line();
            }
            Phase::Fresh => self.start_line(),
            Phase::Continued => self.start_line(),
        }
        Ok(())
    }

    fn take_line_end(&mut self, front: &[u8]) -> Mem<()>
        requires room { self.old.at + length front.now < 2 ^ 63 }
        ensures exact { OnOk result (self.new ≡ with_line_end front.now self.old) }
        ensures placed { OnOk result (IsPlaced self.old self.new) }
    {
        if self.depth == 0 {
            return self.end_line(front);
        }
        Ok(())
    }

    fn lay_whitespace(&mut self, front: &[u8])
        requires room { self.old.at + length front.now < 2 ^ 63 }
        requires lined { self.old.line ≤ self.old.at + 1 }
        ensures { self.new ≡ behind_bytes front.now (with_whitespace_in self.old.phase front.now self.old) }
    {
        self.take_whitespace(front);
        self.move_over(front);
    }

    fn lay_line_continuation(&mut self, front: &[u8])
        requires room { self.old.at + length front.now < 2 ^ 63 }
        requires lined { self.old.line ≤ self.old.at + 1 }
        ensures { self.new ≡ behind_bytes front.now (with_continuation_in self.old.phase self.old) }
    {
        self.take_line_continuation();
        self.move_over(front);
    }

    fn lay_line_end(&mut self, front: &[u8]) -> Mem<()>
        requires room { self.old.at + length front.now < 2 ^ 63 }
        requires lined { self.old.line ≤ self.old.at + 1 }
        ensures { OnOk result (self.new ≡ behind_bytes front.now (with_line_end front.now self.old)) }
    {
        self.take_line_end(front)?;
        self.move_over(front);
        Ok(())
    }

    fn lay_shown(&mut self, kind: TokenKind, front: &[u8]) -> Mem<()>
        requires room { self.old.at + length front.now < 2 ^ 63 }
        requires lined { self.old.line ≤ self.old.at + 1 }
        requires nested { self.old.depth ≤ self.old.at }
        ensures { OnOk result (self.new ≡ behind_bytes front.now (with_shown kind front.now self.old)) }
    {
        self.show(kind, front)?;
        self.move_over(front);
        Ok(())
    }

    fn lay_token(&mut self, kind: TokenKind, front: &[u8]) -> May<(), NoLexeme>
        requires room { self.old.at + length front.now < 2 ^ 63 }
        requires lined { self.old.line ≤ self.old.at + 1 }
        requires nested { self.old.depth ≤ self.old.at }
        ensures { Answers (λ _. after_shown kind front.now (after_indentation self.old) ≡ Some self.new)
            (after_shown kind front.now (after_indentation self.old) ≡ None) result }
    {
        match self.begin() {
            Ok(()) => Ok(self.lay_shown(kind, front)?),
            Err(miss) => Err(miss),
        }
    }

    /// Lays one more lexeme, whose bytes these are.
    #[tactic(auto, unfolding(crate::specs::Layouts::layout_after))]
    pub(crate) fn lay(&mut self, lexeme: Lexeme, front: &[u8]) -> May<(), NoLexeme>
        requires room { self.old.at + length front.now < 2 ^ 63 }
        requires lined { self.old.line ≤ self.old.at + 1 }
        requires nested { self.old.depth ≤ self.old.at }
        ensures { Answers (λ _. layout_after lexeme front.now self.old ≡ Some self.new)
            (layout_after lexeme front.now self.old ≡ None) result }
    {
        match lexeme {
            Lexeme::Whitespace => self.lay_whitespace(front),
            Lexeme::Comment => self.move_over(front),
            Lexeme::LineEnd => self.lay_line_end(front)?,
            Lexeme::LineContinuation => self.lay_line_continuation(front),
            Lexeme::Shown(kind) => return self.lay_token(kind, front),
        }
        Ok(())
    }

    fn lacks_newline(&self) -> bool
        ensures { result ≡ lacks_newline (slice_get self.now.tokens (length self.now.tokens - 1)) }
    {
        match self.tokens.items().last() {
            Some(token) => !is_newline(&token.kind),
            None => false,
        }
    }

    fn end_last_line(&mut self) -> Mem<()>
        ensures { OnOk result (self.new ≡ record self.old { tokens = with_last_newline self.old }) }
    {
        if self.lacks_newline() {
            let token = self.here(TokenKind::Newline);
            self.push(token)?;
        }
        Ok(())
    }

    fn close_levels(&mut self) -> Mem<()>
        ensures { OnOk result (self.new.tokens ≡ self.old.tokens ++ map (λ _. here Outdent self.old)
            self.old.levels) }
    {
        'levels: while !self.levels.are_closed() {
            let token = self.here(TokenKind::Outdent);
            self.push(token)?;
            self.levels.close();
        }
        Ok(())
    }

    /// The tokens at the text's end.
    #[tactic(auto, unfolding(crate::specs::Layouts::tokens_at_end))]
    pub(crate) fn end(self) -> Mem<Seq<Token>>
        ensures { IfOk result (λ tokens. tokens ≡ tokens_at_end self) }
    {
        let mut layout = self;
        layout.end_last_line()?;
        layout.close_levels()?;
        Ok(layout.tokens)
    }
}
