//! Days and seconds since 1970-01-01T00:00:00Z on the calendar of `jiff`.
ghost use Rattle.std.specs.Prelude.{◌≡◌, ◌++◌, ◌∷◌, [], ◌≤◌, ◌≤ℤ◌, ◌+◌, ◌*◌, pos, map, if◌then◌else◌, Some, None};
ghost use Rattle.jiff.specs.Words.{epoch_day, iso_datetime_text};
ghost use Rattle.up_canon.specs.Moments.{last_moment, moment_text, day_number, is_date, is_time, worked_moments, worked_texts, DayIsOfCalendar, PartsAreOfDate};

use jiff::ToSpan;
use jiff::civil::{Date, DateTime, date};

/// Days since 1970-01-01 and dates are those of the calendar.
pub fn calendar_laws()
    ensures day { DayIsOfCalendar }
    ensures parts { PartsAreOfDate }
    ensures worked { map moment_text worked_moments ≡ worked_texts }
{}

/// What a clock at UTC shows.
pub(crate) fn shown_at(second: u64) -> DateTime
    requires { second ≤ last_moment }
    ensures { iso_datetime_text result ++ 90 ∷ [] ≡ moment_text second }
{
    date_of((second / 86400) as i64).at(
        (second / 3600 % 24) as i8,
        (second / 60 % 60) as i8,
        (second % 60) as i8,
        0,
    )
}

/// The date of moment 0.
fn epoch() -> Date
    ensures { epoch_day result ≡ pos 0 }
{
    date(1970, 1, 1)
}

/// The date that many days after 1970-01-01.
fn date_of(day: i64) -> Date
    requires low { pos 0 ≤ℤ day }
    requires high { day ≤ℤ pos 2_932_896 }
    ensures { epoch_day result ≡ day }
{
    match epoch().checked_add(day.days()) {
        Ok(date) => date,
        Err(_) => unreachable!(),
    }
}

/// The first second of the date, or none where there is no such date from 1970 on.
pub(crate) fn midnight_of(year: u64, month: u64, day: u64) -> Option<u64>
    ensures { result ≡ (if is_date year month day then Some (day_number year month day * 86400) else None) }
{
    if year < 1970 || year > 9999 || month > 12 || day > 31 {
        return None;
    }
    match Date::new(year as i16, month as i8, day as i8) {
        Ok(found) => Some(found.duration_since(epoch()).as_secs() as u64),
        Err(_) => None,
    }
}

/// The seconds of a day before that time, or none where no clock shows it.
pub(crate) fn seconds_of(hour: u64, minute: u64, second: u64) -> Option<u64>
    ensures { result ≡ (if is_time hour minute second then Some (hour * 3600 + minute * 60 + second) else None) }
{
    if hour < 24 && minute < 60 && second < 60 {
        Some(hour * 3600 + minute * 60 + second)
    } else {
        None
    }
}
