//! How the buckets of an index are filled and kept.

/// The limits of an index, each in the unit of its setting in indexes.conf, whose name is given. A
/// megabyte is 2^20 bytes.
#[derive(Clone, Copy, Debug, PartialEq, Eq)]
pub struct Limits {
    /// `maxDataSize`: a hot bucket of at least so many megabytes rolls to warm.
    pub max_data_mb: u64,
    /// `maxHotBuckets`: before a new bucket is made with so many hot and quarantine ones, one of
    /// them rolls to warm.
    pub max_hot_buckets: u64,
    /// `maxHotSpanSecs`: the most seconds that the events of a hot bucket may lie apart.
    pub max_hot_span_secs: u64,
    /// `maxHotIdleSecs`: a hot bucket without an event for more than so many seconds rolls to warm;
    /// 0 is off.
    pub max_hot_idle_secs: u64,
    /// `maxWarmDBCount`: the most warm buckets.
    pub max_warm_count: u64,
    /// `frozenTimePeriodInSecs`: a bucket whose newest event is older than so many seconds freezes.
    pub frozen_secs: u64,
    /// `maxTotalDataSizeMB`: the most megabytes of hot, warm and cold buckets together.
    pub max_total_mb: u64,
    /// `homePath.maxDataSizeMB`: the most megabytes of hot and warm buckets together; 0 is no
    /// limit.
    pub home_max_mb: u64,
    /// `coldPath.maxDataSizeMB`: the most megabytes of cold buckets; 0 is no limit.
    pub cold_max_mb: u64,
    /// `quarantinePastSecs`: an event more than so many seconds before its arrival goes into
    /// quarantine.
    pub quarantine_past_secs: u64,
    /// `quarantineFutureSecs`: an event more than so many seconds after its arrival goes into
    /// quarantine.
    pub quarantine_future_secs: u64,
    /// Whether the file of a frozen bucket is kept as an archive: true exactly where
    /// `coldToFrozenDir` is set.
    pub archive: bool,
}
