//! Examples of parsed command lines. Each function's contract is an example, and its body is empty.
ghost use Rattle.std.specs.Prelude.{◌≡◌, [], ◌∷◌, All, Err, Ok, Some, None, codes, negsuc};
ghost use Rattle.std.specs.List.{slice_split};
ghost use Rattle.clap.specs.declared.error.kind.ErrorKind.TheVariants.{InvalidValue, MissingRequiredArgument, UnknownArgument, ValueValidation};
ghost use Rattle.cli_args.specs.ColumnNames.{column_names, is_comma};
ghost use Rattle.cli_args.specs.ConditionTokens.{after_prefix};
ghost use Rattle.cli_args.specs.Conditions.{compare, is_true};
ghost use Rattle.cli_args.specs.NumberLiterals.{decimal_number};
ghost use Rattle.cli_args.specs.declared.column_names.ColumnNamesError.TheVariants.{CommaExpected, UnclosedName};
ghost use Rattle.cli_args.specs.declared.condition.Comparison.TheVariants.{GreaterOrEqual};
ghost use Rattle.cli_args.specs.declared.condition_error.SyntaxErrorKind.TheVariants.{ColumnExpected, LiteralExpected};
ghost use Rattle.cli_args.specs.declared.usage_error.UsageError.TheVariants.{ColumnNames, ColumnsTwice, Condition};
ghost use Rattle.cli_args.specs.Requests.{all, indices, named, slice, where_true};
ghost use Rattle.cli_args.specs.Commands.{concat, count, from_json, in_file, info, listed, schema, tail};
ghost use Rattle.cli_args.specs.Examples.{MeansNothing, ParsedAs, RefusedWith, Selects};

/// `rows f`; `rows --count 4 f --start=3`; `head f`; `cut f 1 2 -o g`.
pub fn slices_are_parsed()
    ensures rows { Selects (codes "rows" ∷ codes "f" ∷ []) all None }
    ensures slice { Selects (codes "rows" ∷ codes "--count" ∷ codes "4" ∷ codes "f" ∷ codes "--start=3" ∷ []) (slice 3 4) None }
    ensures head { Selects (codes "head" ∷ codes "f" ∷ []) (slice 0 10) None }
    ensures cut { Selects (codes "cut" ∷ codes "f" ∷ codes "1" ∷ codes "2" ∷ codes "-o" ∷ codes "g" ∷ []) (slice 1 2) (Some (codes "g")) }
{}

/// `info f`; `info -- -`; `info f g`; `info f --columns a`.
pub fn infos_are_parsed()
    ensures file { ParsedAs (codes "info" ∷ codes "f" ∷ []) None (info (codes "f")) }
    ensures stdin { ParsedAs (codes "info" ∷ codes "--" ∷ codes "-" ∷ []) None (info (codes "-")) }
    ensures more { RefusedWith (codes "info" ∷ codes "f" ∷ codes "g" ∷ []) (UnknownArgument ∷ []) }
    ensures columns { RefusedWith (codes "info" ∷ codes "f" ∷ codes "--columns" ∷ codes "a" ∷ []) (UnknownArgument ∷ []) }
{}

/// `tail f`; `tail f 3 --columns a`; `count -`.
pub fn last_rows_and_counts_are_parsed()
    ensures ten { ParsedAs (codes "tail" ∷ codes "f" ∷ []) None (tail (codes "f") 10) }
    ensures three { ParsedAs (codes "tail" ∷ codes "f" ∷ codes "3" ∷ codes "--columns" ∷ codes "a" ∷ []) (Some (listed (codes "a" ∷ []))) (tail (codes "f") 3) }
    ensures count { ParsedAs (codes "count" ∷ codes "-" ∷ []) None (count (codes "-")) }
{}

/// `take f 7 0 7`; `where -- f ok`; `where f 'n >= -1.5'`.
pub fn selections_are_parsed()
    ensures indices { Selects (codes "take" ∷ codes "f" ∷ codes "7" ∷ codes "0" ∷ codes "7" ∷ []) (indices (7 ∷ 0 ∷ 7 ∷ [])) None }
    ensures column { Selects (codes "where" ∷ codes "--" ∷ codes "f" ∷ codes "ok" ∷ []) (where_true (is_true (named (codes "ok")) 0)) None }
    ensures comparison { Selects (codes "where" ∷ codes "f" ∷ codes "n >= -1.5" ∷ []) (where_true (compare (named (codes "n")) 0 GreaterOrEqual (decimal_number (negsuc 14) 1))) None }
{}

/// `schema - --columns a,b`; `concat -o c f g`; `from-json t f g`.
pub fn files_are_parsed()
    ensures columns { ParsedAs (codes "schema" ∷ codes "-" ∷ codes "--columns" ∷ codes "a,b" ∷ []) (Some (listed (codes "a" ∷ codes "b" ∷ []))) (schema (codes "-")) }
    ensures files { ParsedAs (codes "concat" ∷ codes "-o" ∷ codes "c" ∷ codes "f" ∷ codes "g" ∷ []) None (concat (codes "f" ∷ codes "g" ∷ []) (codes "c")) }
    ensures import { ParsedAs (codes "from-json" ∷ codes "t" ∷ codes "f" ∷ codes "g" ∷ []) None (from_json (codes "t") (codes "f") (codes "g")) }
{}

/// `slice f 1`; `take f x`; `schema f 0`; `rows f --count`; `head f -o g`; `--columns a rows f`.
pub fn invalid_arguments_are_refused()
    ensures missing { RefusedWith (codes "slice" ∷ codes "f" ∷ codes "1" ∷ []) (MissingRequiredArgument ∷ []) }
    ensures integer { RefusedWith (codes "take" ∷ codes "f" ∷ codes "x" ∷ []) (ValueValidation ∷ []) }
    ensures more { RefusedWith (codes "schema" ∷ codes "f" ∷ codes "0" ∷ []) (UnknownArgument ∷ []) }
    ensures value { RefusedWith (codes "rows" ∷ codes "f" ∷ codes "--count" ∷ []) (InvalidValue ∷ []) }
    ensures option { RefusedWith (codes "head" ∷ codes "f" ∷ codes "-o" ∷ codes "g" ∷ []) (UnknownArgument ∷ []) }
    ensures before { RefusedWith (codes "--columns" ∷ codes "a" ∷ codes "rows" ∷ codes "f" ∷ []) (UnknownArgument ∷ []) }
{}

/// `a,b`; `a`; the empty string, which is one name; `a,`; `a"b,c"`.
pub fn column_names_are_split_at_commas()
    ensures two { column_names (codes "a,b") ≡ Ok (codes "a" ∷ codes "b" ∷ []) }
    ensures one { column_names (codes "a") ≡ Ok (codes "a" ∷ []) }
    ensures empty { column_names [] ≡ Ok ([] ∷ []) }
    ensures last { column_names (codes "a,") ≡ Ok (codes "a" ∷ [] ∷ []) }
    ensures inside { column_names (codes "a\"b,c\"") ≡ Ok (codes "a\"b" ∷ codes "c\"" ∷ []) }
{}

/// `"a,b",c`; `"a""b"`; `"",a`; `a,"b`; `"a"b`.
pub fn quoted_column_names_are_parsed()
    ensures comma { column_names (codes "\"a,b\",c") ≡ Ok (codes "a,b" ∷ codes "c" ∷ []) }
    ensures quote { column_names (codes "\"a\"\"b\"") ≡ Ok (codes "a\"b" ∷ []) }
    ensures empty { column_names (codes "\"\",a") ≡ Ok ([] ∷ codes "a" ∷ []) }
    ensures closing { column_names (codes "a,\"b") ≡ Err (UnclosedName 2) }
    ensures after { column_names (codes "\"a\"b") ≡ Err (CommaExpected 3) }
{}

/// If no string between commas begins with a double quote, these strings are the names.
pub fn plain_column_names_are_split_at_commas(text: &str)
    requires { All (λ name. after_prefix (codes "\"") name ≡ None) (slice_split is_comma text.now) }
    ensures { column_names text.now ≡ Ok (slice_split is_comma text.now) }
{}

/// `count f --columns '"a,b",c'`; `count f --columns '"a'`.
pub fn quoted_columns_are_parsed()
    ensures names { ParsedAs (codes "count" ∷ codes "f" ∷ codes "--columns" ∷ codes "\"a,b\",c" ∷ []) (Some (listed (codes "a,b" ∷ codes "c" ∷ []))) (count (codes "f")) }
    ensures closing { MeansNothing (codes "count" ∷ codes "f" ∷ codes "--columns" ∷ codes "\"a" ∷ []) (ColumnNames (UnclosedName 0)) }
{}

/// `count f --columns-file g`; `count f --columns a --columns-file g`.
pub fn files_of_columns_are_parsed()
    ensures file { ParsedAs (codes "count" ∷ codes "f" ∷ codes "--columns-file" ∷ codes "g" ∷ []) (Some (in_file (codes "g"))) (count (codes "f")) }
    ensures both { MeansNothing (codes "count" ∷ codes "f" ∷ codes "--columns" ∷ codes "a" ∷ codes "--columns-file" ∷ codes "g" ∷ []) ColumnsTwice }
{}

/// `where f`; `where f 'a ='`; `where f 'is ok'`.
pub fn invalid_conditions_are_refused()
    ensures missing { RefusedWith (codes "where" ∷ codes "f" ∷ []) (MissingRequiredArgument ∷ []) }
    ensures literal { MeansNothing (codes "where" ∷ codes "f" ∷ codes "a =" ∷ []) (Condition (record { position = 3; kind = LiteralExpected })) }
    ensures column { MeansNothing (codes "where" ∷ codes "f" ∷ codes "is ok" ∷ []) (Condition (record { position = 0; kind = ColumnExpected })) }
{}
