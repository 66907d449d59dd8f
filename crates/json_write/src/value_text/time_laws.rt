//! Properties of the text, as functions with empty bodies: two values of one type are equal if their text is.
ghost use Rattle.std.specs.Prelude.{◌≡◌, ℕ, ℤ, Bool, codes, false, negsuc, pos, true};
ghost use Rattle.json_write.specs.Decimals.{decimal_text};
ghost use Rattle.json_write.specs.Times.{date_text, days_ms_text, duration_text, millisecond_date_text, month_day_nano_text, months_text, time_text, timestamp_text};

/// Two dates, times or timestamps of one unit are equal if their text is equal.
pub fn equal_texts_are_equal_times()
    ensures date { (m n : ℤ) → date_text m ≡ date_text n → m ≡ n }
    ensures millisecond_date { (m n : ℤ) → millisecond_date_text m ≡ millisecond_date_text n → m ≡ n }
    ensures time { (k : ℕ) (m n : ℤ) → time_text k m ≡ time_text k n → m ≡ n }
    ensures timestamp { (k : ℕ) (utc : Bool) (m n : ℤ) → timestamp_text k utc m ≡ timestamp_text k utc n → m ≡ n }
{}

/// Two durations of one unit, intervals or decimals of one scale are equal if their text is equal.
pub fn equal_texts_are_equal_durations()
    ensures duration { (k : ℕ) (m n : ℤ) → duration_text k m ≡ duration_text k n → m ≡ n }
    ensures months { (m n : ℤ) → months_text m ≡ months_text n → m ≡ n }
    ensures days_ms { (a m b n : ℤ) → days_ms_text a m ≡ days_ms_text b n → (a ≡ b) × (m ≡ n) }
    ensures month_day_nano { (x a m y b n : ℤ) → month_day_nano_text x a m ≡ month_day_nano_text y b n → (x ≡ y) × (a ≡ b) × (m ≡ n) }
    ensures decimal { (scale : ℕ) (m n : ℤ) → decimal_text scale m ≡ decimal_text scale n → m ≡ n }
{}

/// Dates: a leap day, years of more than four digits, and dates in milliseconds with and without a time.
pub fn some_date_texts()
    ensures leap_day { date_text (pos 19_782) ≡ codes "2024-02-29" }
    ensures five_digits { date_text (pos 3_789_391) ≡ codes "+012345-01-01" }
    ensures negative { date_text (negsuc 719_528) ≡ codes "-000001-12-31" }
    ensures day { millisecond_date_text (pos 1_709_164_800_000) ≡ codes "2024-02-29" }
    ensures time { millisecond_date_text (pos 1_709_164_800_001) ≡ codes "2024-02-29T00:00:00.001" }
{}

/// Times and timestamps: a millisecond, values outside of a day, a microsecond, UTC, and the second before 1970.
pub fn some_time_texts()
    ensures time { time_text 3 (pos 45_296_789) ≡ codes "12:34:56.789" }
    ensures past_the_day { time_text 0 (pos 86_400) ≡ codes "86400" }
    ensures before_the_day { time_text 0 (negsuc 0) ≡ codes "-1" }
    ensures timestamp { timestamp_text 6 false (pos 1_709_210_096_000_001) ≡ codes "2024-02-29T12:34:56.000001" }
    ensures utc { timestamp_text 0 true (pos 1_709_210_096) ≡ codes "2024-02-29T12:34:56Z" }
    ensures before_1970 { timestamp_text 3 false (negsuc 0) ≡ codes "1969-12-31T23:59:59.999" }
{}

/// Durations, intervals and decimals of either sign.
pub fn some_duration_texts()
    ensures duration { duration_text 3 (pos 1_500) ≡ codes "PT1.500S" }
    ensures negative { duration_text 0 (negsuc 2) ≡ codes "PT-3S" }
    ensures months { months_text (pos 14) ≡ codes "P14M" }
    ensures days_ms { days_ms_text (pos 1) (pos 3) ≡ codes "P1DT0.003S" }
    ensures month_day_nano { month_day_nano_text (negsuc 0) (negsuc 1) (negsuc 2) ≡ codes "P-1M-2DT-0.000000003S" }
    ensures decimal { decimal_text 2 (pos 125) ≡ codes "1.25" }
    ensures negative_decimal { decimal_text 2 (negsuc 4) ≡ codes "-0.05" }
{}
