//! The tokens of a text, their offsets, and the number of those that are counted.

ghost use Rattle.std.specs.Prelude.{Some, None, [], map, ◌∷◌, ◌≡◌};
ghost use Rattle.lb_syntax.specs.declared.token.Mark.TheVariants as m;
ghost use Rattle.lb_syntax.specs.Places.{column_of, line_of, starts, wrong_at};
ghost use Rattle.lb_syntax.specs.Tokens.{tokens};
ghost use Rattle.lb_worked.specs.WorkedTexts.{tokens_of, starts_of, wrong_in, named, mark, counts};
ghost use Rattle.lb_worked.specs.WorkedTexts.{line_comment, bytes_in_comments, no_token};
ghost use Rattle.lb_worked.specs.WorkedTexts.{on_the_second_line, longest_symbols, literals, names};
ghost use Rattle.lb_worked.specs.WorkedTexts.{reserved_words, reserved, symbols};

/// Comments do not nest. The end of a comment stands after its opening: `(*)` is not closed.
pub fn comments_and_white_space()
    ensures empty { tokens_of "" ≡ Some [] }
    ensures comments_do_not_nest { tokens_of "(* a (* b *) node" ≡ Some (mark m.Node ∷ []) }
    ensures start_after_a_comment { starts_of "(* a (* b *) node" ≡ (13 ∷ []) }
    ensures start_between_comments { starts_of "x /*y*/ = 12" ≡ (0 ∷ 8 ∷ 10 ∷ []) }
    ensures opening_is_no_end { tokens_of "x (*)" ≡ None }
    ensures at_its_opening { wrong_in "x (*)" ≡ Some 2 }
    ensures unclosed_at_its_first_byte { wrong_in "node /* tel" ≡ Some 5 }
    ensures comment_before_minus { tokens_of "a--b" ≡ Some (named "a" ∷ []) }
    ensures any_byte_in_a_comment { tokens line_comment ≡ Some (named "y" ∷ []) }
    ensures start_after_it { starts line_comment ≡ (10 ∷ []) }
    ensures a_byte_after_comments { wrong_at bytes_in_comments ≡ Some 11 }
{}

/// Some bytes are allowed in comments alone; the first one outside of them is reported.
pub fn bytes_of_no_token()
    ensures offsets { map (λ b. wrong_at (on_the_second_line b)) no_token
        ≡ map (λ b. Some 11) no_token }
    ensures lines { map (λ b. line_of (on_the_second_line b) 11) no_token ≡ map (λ b. 2) no_token }
    ensures columns { map (λ b. column_of (on_the_second_line b) 11) no_token
        ≡ map (λ b. 4) no_token }
{}

/// The longest token is taken; a word is reserved as a whole; the sign is no part of a literal.
pub fn words_and_symbols()
    ensures longest_symbols { tokens_of "<<<=..->>>=a--b" ≡ Some longest_symbols }
    ensures starts_of_symbols { starts_of "<<<=..->>>=a--b" ≡
        (0 ∷ 2 ∷ 4 ∷ 6 ∷ 8 ∷ 10 ∷ 11 ∷ []) }
    ensures literals { tokens_of "-2147483648 2147483647 99999999999999999999" ≡ Some literals }
    ensures starts_of_literals { starts_of "-2147483648 2147483647 99999999999999999999" ≡
        (0 ∷ 1 ∷ 12 ∷ 23 ∷ []) }
    ensures names { tokens_of "prefix pre _1 map 7up 007" ≡ Some names }
    ensures starts_of_names { starts_of "prefix pre _1 map 7up 007" ≡
        (0 ∷ 7 ∷ 11 ∷ 14 ∷ 18 ∷ 19 ∷ 22 ∷ []) }
    ensures reserved { tokens reserved_words ≡ Some (map mark reserved) }
    ensures symbols { tokens_of "=><>>=.;:,()[]<>+-*/^|#" ≡ Some (map mark symbols) }
    ensures starts_of_them { starts_of "=><>>=.;:,()[]<>+-*/^|#" ≡
        (0 ∷ 2 ∷ 4 ∷ 6 ∷ 7 ∷ 8 ∷ 9 ∷ 10 ∷ 11 ∷ 12 ∷ 13 ∷ 14 ∷ 16
        ∷ 17 ∷ 18 ∷ 19 ∷ 20 ∷ 21 ∷ 22 ∷ []) }
{}

/// The number of counted tokens in each statement.
pub fn counted_tokens()
    ensures of_equations { counts "let x = (y); z = w; tel" ≡ (0 ∷ 2 ∷ 1 ∷ 0 ∷ 0 ∷ []) }
    ensures semicolon_in_brackets { counts "map<<f<<1>>;3>>(x);y" ≡ (3 ∷ 0 ∷ []) }
    ensures depth_is_not_negative { counts ">> >> (;(<<;(>>;(" ≡ (1 ∷ 3 ∷ 1 ∷ []) }
    ensures depth_ends_at_let { counts "<< let (;(" ≡ (1 ∷ 1 ∷ 1 ∷ []) }
{}
