//! The kinds of tokens and nodes: the number of each is its position in the list, from 0.
//! Written by tools/kinds from docs/kinds.tsv.

/// A kind, as its number: columns, records and rows may hold any, also one that no kind has.
pub type SyntaxKind = u16;

pub const TOMBSTONE: SyntaxKind = 0;

pub const EOF: SyntaxKind = 1;

pub const DOLLAR: SyntaxKind = 2;

pub const SEMICOLON: SyntaxKind = 3;

pub const COMMA: SyntaxKind = 4;

pub const L_PAREN: SyntaxKind = 5;

pub const R_PAREN: SyntaxKind = 6;

pub const L_CURLY: SyntaxKind = 7;

pub const R_CURLY: SyntaxKind = 8;

pub const L_BRACK: SyntaxKind = 9;

pub const R_BRACK: SyntaxKind = 10;

pub const L_ANGLE: SyntaxKind = 11;

pub const R_ANGLE: SyntaxKind = 12;

pub const AT: SyntaxKind = 13;

pub const POUND: SyntaxKind = 14;

pub const TILDE: SyntaxKind = 15;

pub const QUESTION: SyntaxKind = 16;

pub const AMP: SyntaxKind = 17;

pub const PIPE: SyntaxKind = 18;

pub const PLUS: SyntaxKind = 19;

pub const STAR: SyntaxKind = 20;

pub const SLASH: SyntaxKind = 21;

pub const CARET: SyntaxKind = 22;

pub const PERCENT: SyntaxKind = 23;

pub const UNDERSCORE: SyntaxKind = 24;

pub const DOT: SyntaxKind = 25;

pub const DOT2: SyntaxKind = 26;

pub const DOT3: SyntaxKind = 27;

pub const DOT2EQ: SyntaxKind = 28;

pub const COLON: SyntaxKind = 29;

pub const COLON2: SyntaxKind = 30;

pub const EQ: SyntaxKind = 31;

pub const EQ2: SyntaxKind = 32;

pub const FAT_ARROW: SyntaxKind = 33;

pub const BANG: SyntaxKind = 34;

pub const NEQ: SyntaxKind = 35;

pub const MINUS: SyntaxKind = 36;

pub const THIN_ARROW: SyntaxKind = 37;

pub const LTEQ: SyntaxKind = 38;

pub const GTEQ: SyntaxKind = 39;

pub const PLUSEQ: SyntaxKind = 40;

pub const MINUSEQ: SyntaxKind = 41;

pub const PIPEEQ: SyntaxKind = 42;

pub const AMPEQ: SyntaxKind = 43;

pub const CARETEQ: SyntaxKind = 44;

pub const SLASHEQ: SyntaxKind = 45;

pub const STAREQ: SyntaxKind = 46;

pub const PERCENTEQ: SyntaxKind = 47;

pub const AMP2: SyntaxKind = 48;

pub const PIPE2: SyntaxKind = 49;

pub const SHL: SyntaxKind = 50;

pub const SHR: SyntaxKind = 51;

pub const SHLEQ: SyntaxKind = 52;

pub const SHREQ: SyntaxKind = 53;

pub const SELF_TYPE_KW: SyntaxKind = 54;

pub const ABSTRACT_KW: SyntaxKind = 55;

pub const AS_KW: SyntaxKind = 56;

pub const BECOME_KW: SyntaxKind = 57;

pub const BOX_KW: SyntaxKind = 58;

pub const BREAK_KW: SyntaxKind = 59;

pub const CONST_KW: SyntaxKind = 60;

pub const CONTINUE_KW: SyntaxKind = 61;

pub const CRATE_KW: SyntaxKind = 62;

pub const DO_KW: SyntaxKind = 63;

pub const ELSE_KW: SyntaxKind = 64;

pub const ENUM_KW: SyntaxKind = 65;

pub const EXTERN_KW: SyntaxKind = 66;

pub const FALSE_KW: SyntaxKind = 67;

pub const FINAL_KW: SyntaxKind = 68;

pub const FN_KW: SyntaxKind = 69;

pub const FOR_KW: SyntaxKind = 70;

pub const IF_KW: SyntaxKind = 71;

pub const IMPL_KW: SyntaxKind = 72;

pub const IN_KW: SyntaxKind = 73;

pub const LET_KW: SyntaxKind = 74;

pub const LOOP_KW: SyntaxKind = 75;

pub const MACRO_KW: SyntaxKind = 76;

pub const MATCH_KW: SyntaxKind = 77;

pub const MOD_KW: SyntaxKind = 78;

pub const MOVE_KW: SyntaxKind = 79;

pub const MUT_KW: SyntaxKind = 80;

pub const OVERRIDE_KW: SyntaxKind = 81;

pub const PRIV_KW: SyntaxKind = 82;

pub const PUB_KW: SyntaxKind = 83;

pub const REF_KW: SyntaxKind = 84;

pub const RETURN_KW: SyntaxKind = 85;

pub const SELF_KW: SyntaxKind = 86;

pub const STATIC_KW: SyntaxKind = 87;

pub const STRUCT_KW: SyntaxKind = 88;

pub const SUPER_KW: SyntaxKind = 89;

pub const TRAIT_KW: SyntaxKind = 90;

pub const TRUE_KW: SyntaxKind = 91;

pub const TYPE_KW: SyntaxKind = 92;

pub const TYPEOF_KW: SyntaxKind = 93;

pub const UNSAFE_KW: SyntaxKind = 94;

pub const UNSIZED_KW: SyntaxKind = 95;

pub const USE_KW: SyntaxKind = 96;

pub const VIRTUAL_KW: SyntaxKind = 97;

pub const WHERE_KW: SyntaxKind = 98;

pub const WHILE_KW: SyntaxKind = 99;

pub const YIELD_KW: SyntaxKind = 100;

pub const ASM_KW: SyntaxKind = 101;

pub const ASYNC_KW: SyntaxKind = 102;

pub const ATT_SYNTAX_KW: SyntaxKind = 103;

pub const AUTO_KW: SyntaxKind = 104;

pub const AWAIT_KW: SyntaxKind = 105;

pub const BIKESHED_KW: SyntaxKind = 106;

pub const BUILTIN_KW: SyntaxKind = 107;

pub const CFG_ATTR_KW: SyntaxKind = 108;

pub const CFG_KW: SyntaxKind = 109;

pub const CLOBBER_ABI_KW: SyntaxKind = 110;

pub const DEFAULT_KW: SyntaxKind = 111;

pub const DEREF_KW: SyntaxKind = 112;

pub const DYN_KW: SyntaxKind = 113;

pub const FORMAT_ARGS_KW: SyntaxKind = 114;

pub const GEN_KW: SyntaxKind = 115;

pub const GLOBAL_ASM_KW: SyntaxKind = 116;

pub const INCLUDE_BYTES_KW: SyntaxKind = 117;

pub const INLATEOUT_KW: SyntaxKind = 118;

pub const INOUT_KW: SyntaxKind = 119;

pub const IS_KW: SyntaxKind = 120;

pub const LABEL_KW: SyntaxKind = 121;

pub const LATEOUT_KW: SyntaxKind = 122;

pub const MACRO_RULES_KW: SyntaxKind = 123;

pub const MAY_UNWIND_KW: SyntaxKind = 124;

pub const NAKED_ASM_KW: SyntaxKind = 125;

pub const NOMEM_KW: SyntaxKind = 126;

pub const NORETURN_KW: SyntaxKind = 127;

pub const NOSTACK_KW: SyntaxKind = 128;

pub const NULL_KW: SyntaxKind = 129;

pub const OFFSET_OF_KW: SyntaxKind = 130;

pub const OPTIONS_KW: SyntaxKind = 131;

pub const OUT_KW: SyntaxKind = 132;

pub const PATTERN_TYPE_KW: SyntaxKind = 133;

pub const PRESERVES_FLAGS_KW: SyntaxKind = 134;

pub const PURE_KW: SyntaxKind = 135;

pub const RAW_KW: SyntaxKind = 136;

pub const READONLY_KW: SyntaxKind = 137;

pub const SAFE_KW: SyntaxKind = 138;

pub const SYM_KW: SyntaxKind = 139;

pub const TRY_KW: SyntaxKind = 140;

pub const UNION_KW: SyntaxKind = 141;

pub const YEET_KW: SyntaxKind = 142;

pub const BYTE: SyntaxKind = 143;

pub const BYTE_STRING: SyntaxKind = 144;

pub const CHAR: SyntaxKind = 145;

pub const C_STRING: SyntaxKind = 146;

pub const FLOAT_NUMBER: SyntaxKind = 147;

pub const INT_NUMBER: SyntaxKind = 148;

pub const STRING: SyntaxKind = 149;

pub const COMMENT: SyntaxKind = 150;

pub const ERROR: SyntaxKind = 151;

pub const FRONTMATTER: SyntaxKind = 152;

pub const IDENT: SyntaxKind = 153;

pub const INNER_DOC_COMMENT: SyntaxKind = 154;

pub const LIFETIME_IDENT: SyntaxKind = 155;

pub const NEWLINE: SyntaxKind = 156;

pub const OUTER_DOC_COMMENT: SyntaxKind = 157;

pub const SHEBANG: SyntaxKind = 158;

pub const WHITESPACE: SyntaxKind = 159;

pub const ABI: SyntaxKind = 160;

pub const ARG_LIST: SyntaxKind = 161;

pub const ARRAY_EXPR: SyntaxKind = 162;

pub const ARRAY_TYPE: SyntaxKind = 163;

pub const ASM_CLOBBER_ABI: SyntaxKind = 164;

pub const ASM_CONST: SyntaxKind = 165;

pub const ASM_DIR_SPEC: SyntaxKind = 166;

pub const ASM_EXPR: SyntaxKind = 167;

pub const ASM_LABEL: SyntaxKind = 168;

pub const ASM_OPERAND_EXPR: SyntaxKind = 169;

pub const ASM_OPERAND_NAMED: SyntaxKind = 170;

pub const ASM_OPTION: SyntaxKind = 171;

pub const ASM_OPTIONS: SyntaxKind = 172;

pub const ASM_REG_OPERAND: SyntaxKind = 173;

pub const ASM_REG_SPEC: SyntaxKind = 174;

pub const ASM_SYM: SyntaxKind = 175;

pub const ASSOC_ITEM_LIST: SyntaxKind = 176;

pub const ASSOC_TYPE_ARG: SyntaxKind = 177;

pub const ATTR: SyntaxKind = 178;

pub const AWAIT_EXPR: SyntaxKind = 179;

pub const BECOME_EXPR: SyntaxKind = 180;

pub const BIN_EXPR: SyntaxKind = 181;

pub const BLOCK_EXPR: SyntaxKind = 182;

pub const BOX_PAT: SyntaxKind = 183;

pub const BREAK_EXPR: SyntaxKind = 184;

pub const CALL_EXPR: SyntaxKind = 185;

pub const CAST_EXPR: SyntaxKind = 186;

pub const CFG_ATOM: SyntaxKind = 187;

pub const CFG_ATTR_META: SyntaxKind = 188;

pub const CFG_COMPOSITE: SyntaxKind = 189;

pub const CFG_META: SyntaxKind = 190;

pub const CFG_PRED_EXPR: SyntaxKind = 191;

pub const CFG_PRED_PAT: SyntaxKind = 192;

pub const CLOSURE_EXPR: SyntaxKind = 193;

pub const CONST: SyntaxKind = 194;

pub const CONST_ARG: SyntaxKind = 195;

pub const CONST_BLOCK_PAT: SyntaxKind = 196;

pub const CONST_PARAM: SyntaxKind = 197;

pub const CONTINUE_EXPR: SyntaxKind = 198;

pub const DEREF_PAT: SyntaxKind = 199;

pub const DOC_COMMENT: SyntaxKind = 200;

pub const DYN_TRAIT_TYPE: SyntaxKind = 201;

pub const ENUM: SyntaxKind = 202;

pub const EXPR_STMT: SyntaxKind = 203;

pub const EXTERN_BLOCK: SyntaxKind = 204;

pub const EXTERN_CRATE: SyntaxKind = 205;

pub const EXTERN_ITEM_LIST: SyntaxKind = 206;

pub const FIELD_EXPR: SyntaxKind = 207;

pub const FN: SyntaxKind = 208;

pub const FN_PTR_TYPE: SyntaxKind = 209;

pub const FORMAT_ARGS_ARG: SyntaxKind = 210;

pub const FORMAT_ARGS_EXPR: SyntaxKind = 211;

pub const FOR_BINDER: SyntaxKind = 212;

pub const FOR_EXPR: SyntaxKind = 213;

pub const FOR_TYPE: SyntaxKind = 214;

pub const GENERIC_ARG_LIST: SyntaxKind = 215;

pub const GENERIC_PARAM_LIST: SyntaxKind = 216;

pub const IDENT_PAT: SyntaxKind = 217;

pub const IF_EXPR: SyntaxKind = 218;

pub const IMPL: SyntaxKind = 219;

pub const IMPL_RESTRICTION: SyntaxKind = 220;

pub const IMPL_TRAIT_TYPE: SyntaxKind = 221;

pub const INCLUDE_BYTES_EXPR: SyntaxKind = 222;

pub const INDEX_EXPR: SyntaxKind = 223;

pub const INFER_TYPE: SyntaxKind = 224;

pub const ITEM_LIST: SyntaxKind = 225;

pub const KEY_VALUE_META: SyntaxKind = 226;

pub const LABEL: SyntaxKind = 227;

pub const LET_ELSE: SyntaxKind = 228;

pub const LET_EXPR: SyntaxKind = 229;

pub const LET_STMT: SyntaxKind = 230;

pub const LIFETIME: SyntaxKind = 231;

pub const LIFETIME_ARG: SyntaxKind = 232;

pub const LIFETIME_PARAM: SyntaxKind = 233;

pub const LITERAL: SyntaxKind = 234;

pub const LITERAL_PAT: SyntaxKind = 235;

pub const LOOP_EXPR: SyntaxKind = 236;

pub const MACRO_CALL: SyntaxKind = 237;

pub const MACRO_DEF: SyntaxKind = 238;

pub const MACRO_EXPR: SyntaxKind = 239;

pub const MACRO_ITEMS: SyntaxKind = 240;

pub const MACRO_PAT: SyntaxKind = 241;

pub const MACRO_RULES: SyntaxKind = 242;

pub const MACRO_STMTS: SyntaxKind = 243;

pub const MACRO_TYPE: SyntaxKind = 244;

pub const MATCH_ARM: SyntaxKind = 245;

pub const MATCH_ARM_LIST: SyntaxKind = 246;

pub const MATCH_EXPR: SyntaxKind = 247;

pub const MATCH_GUARD: SyntaxKind = 248;

pub const METHOD_CALL_EXPR: SyntaxKind = 249;

pub const MODULE: SyntaxKind = 250;

pub const MUT_RESTRICTION: SyntaxKind = 251;

pub const NAME: SyntaxKind = 252;

pub const NAME_REF: SyntaxKind = 253;

pub const NEVER_TYPE: SyntaxKind = 254;

pub const NOT_NULL: SyntaxKind = 255;

pub const OFFSET_OF_EXPR: SyntaxKind = 256;

pub const OR_PAT: SyntaxKind = 257;

pub const PARAM: SyntaxKind = 258;

pub const PARAM_LIST: SyntaxKind = 259;

pub const PARENTHESIZED_ARG_LIST: SyntaxKind = 260;

pub const PAREN_EXPR: SyntaxKind = 261;

pub const PAREN_PAT: SyntaxKind = 262;

pub const PAREN_TYPE: SyntaxKind = 263;

pub const PATH: SyntaxKind = 264;

pub const PATH_EXPR: SyntaxKind = 265;

pub const PATH_META: SyntaxKind = 266;

pub const PATH_PAT: SyntaxKind = 267;

pub const PATH_SEGMENT: SyntaxKind = 268;

pub const PATH_TYPE: SyntaxKind = 269;

pub const PATTERN_TYPE: SyntaxKind = 270;

pub const PREFIX_EXPR: SyntaxKind = 271;

pub const PTR_TYPE: SyntaxKind = 272;

pub const RANGE_EXPR: SyntaxKind = 273;

pub const RANGE_PAT: SyntaxKind = 274;

pub const RECORD_EXPR: SyntaxKind = 275;

pub const RECORD_EXPR_FIELD: SyntaxKind = 276;

pub const RECORD_EXPR_FIELD_LIST: SyntaxKind = 277;

pub const RECORD_FIELD: SyntaxKind = 278;

pub const RECORD_FIELD_LIST: SyntaxKind = 279;

pub const RECORD_PAT: SyntaxKind = 280;

pub const RECORD_PAT_FIELD: SyntaxKind = 281;

pub const RECORD_PAT_FIELD_LIST: SyntaxKind = 282;

pub const REF_EXPR: SyntaxKind = 283;

pub const REF_PAT: SyntaxKind = 284;

pub const REF_TYPE: SyntaxKind = 285;

pub const RENAME: SyntaxKind = 286;

pub const REST_PAT: SyntaxKind = 287;

pub const RETURN_EXPR: SyntaxKind = 288;

pub const RETURN_TYPE_SYNTAX: SyntaxKind = 289;

pub const RET_TYPE: SyntaxKind = 290;

pub const SELF_PARAM: SyntaxKind = 291;

pub const SLICE_PAT: SyntaxKind = 292;

pub const SLICE_TYPE: SyntaxKind = 293;

pub const SOURCE_FILE: SyntaxKind = 294;

pub const STATIC: SyntaxKind = 295;

pub const STMT_LIST: SyntaxKind = 296;

pub const STRUCT: SyntaxKind = 297;

pub const TOKEN_TREE: SyntaxKind = 298;

pub const TOKEN_TREE_META: SyntaxKind = 299;

pub const TRAIT: SyntaxKind = 300;

pub const TRY_BLOCK_MODIFIER: SyntaxKind = 301;

pub const TRY_EXPR: SyntaxKind = 302;

pub const TUPLE_EXPR: SyntaxKind = 303;

pub const TUPLE_FIELD: SyntaxKind = 304;

pub const TUPLE_FIELD_LIST: SyntaxKind = 305;

pub const TUPLE_PAT: SyntaxKind = 306;

pub const TUPLE_STRUCT_PAT: SyntaxKind = 307;

pub const TUPLE_TYPE: SyntaxKind = 308;

pub const TYPE_ALIAS: SyntaxKind = 309;

pub const TYPE_ANCHOR: SyntaxKind = 310;

pub const TYPE_ARG: SyntaxKind = 311;

pub const TYPE_BOUND: SyntaxKind = 312;

pub const TYPE_BOUND_LIST: SyntaxKind = 313;

pub const TYPE_PARAM: SyntaxKind = 314;

pub const UNDERSCORE_EXPR: SyntaxKind = 315;

pub const UNION: SyntaxKind = 316;

pub const UNSAFE_META: SyntaxKind = 317;

pub const USE: SyntaxKind = 318;

pub const USE_BOUND_GENERIC_ARGS: SyntaxKind = 319;

pub const USE_TREE: SyntaxKind = 320;

pub const USE_TREE_LIST: SyntaxKind = 321;

pub const VARIANT: SyntaxKind = 322;

pub const VARIANT_LIST: SyntaxKind = 323;

pub const VISIBILITY: SyntaxKind = 324;

pub const VISIBILITY_INNER: SyntaxKind = 325;

pub const WHERE_CLAUSE: SyntaxKind = 326;

pub const WHERE_PRED: SyntaxKind = 327;

pub const WHILE_EXPR: SyntaxKind = 328;

pub const WILDCARD_PAT: SyntaxKind = 329;

pub const YEET_EXPR: SyntaxKind = 330;

pub const YIELD_EXPR: SyntaxKind = 331;

pub const __LAST: SyntaxKind = 332;
